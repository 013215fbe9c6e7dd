// Constants of the definitions in specs/, for all crates: the limits on a machine, as `Limits` and `Monitor` have them
// (crates/machine/specs).
#![tactic(auto)]

pub const THREADS: usize = 16;

pub const REGIONS: usize = 16;

pub const STATES: usize = 4096;

// A state's number; also a count of states, and what a body ends with: a state's number, or STATE_END for a fault.
pub type StateNumber = u16;

// These limits again, in the types in which the numbers of threads, regions and states are held. The last is also answered where
// there is no state.
pub const THREAD_END: u8 = 16;

pub const REGION_END: u8 = 16;

pub const STATE_END: StateNumber = 4096;

// The states after bodies, of all regions at all states.
pub const AFTER: usize = 65536;

// The entries of all regions and guards.
pub const ENTRIES: usize = 256;
