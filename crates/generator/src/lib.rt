// The load generator: frames that the plain machine allows, drawn one after the other, and their lines in a lent buffer.
#![tactic(auto)]

ghost use Rattle.std.specs.Prelude.{List, ℕ};
ghost use Rattle.machine.specs.Monitor.{Monitor};
ghost use Rattle.generator.specs.Making.{MakeAsked, MakesFrames};

use machine::StateNumber;
use stepper::Slices;

// How many frames are made of those wanted, from a state with all threads idle.
pub fn make_frames(
    seed: u32,
    threads: u8,
    wanted: usize,
    state: StateNumber,
    slices: &Slices,
    out: &mut [u8],
) -> usize
    ensures { (m : Monitor) (kept : List ℕ)
        → MakeAsked threads wanted state slices.now.holds.now slices.now.after.now slices.now.guard_of.now
        slices.now.begins.now slices.now.goes_on.now slices.now.regions out.old m kept
        → MakesFrames m seed threads wanted state result out.old out.new }
{
    let no_entries = [0u8; machine::ENTRIES];
    let methods = allowed::methods_of(slices.begins, slices.regions);
    let mut run = stepper::start(state);
    let mut number = seed;
    let mut last: u8 = 0;
    let mut at: usize = 0;
    for k in 0..wanted {
        let next = draws::next(number);
        let Some(frame) = allowed::choose(
            run,
            last,
            threads,
            draws::upper_bits(next),
            methods,
            slices.holds,
            slices.guard_of,
            &no_entries,
        ) else {
            return k;
        };
        run = slices.step(run, frame).run;
        at = lines::put_frame(out, at, frame);
        last = frame.thread;
        number = next;
    }
    wanted
}
