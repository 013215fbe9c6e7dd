// Every point of both machines' runs of a trace, as bytes in a lent buffer: what both have in common once, and each
// machine's notices.
#![tactic(auto)]

ghost use Rattle.std.specs.Prelude.{◌≡◌, List, ℕ, ◌+◌, ◌≤◌, length};
ghost use Rattle.syntax.specs.Tree.{Monitor};
ghost use Rattle.machine.specs.Monitor as machine;
ghost use Rattle.meaning.specs.Points.{point_at};
ghost use Rattle.digits.specs.Written.{Writes};
ghost use Rattle.points.specs.Written.{PointsAsked, PointStands, Listed, WritesPoints};
ghost use Rattle.run.specs.Way.{Way};
ghost use Rattle.meaning.specs.Model.{model};

use machine::StateNumber;
use point::{Notices, Point};
use run::frames::{Going, Stop};
use stepper::Slices;
use variables::Bounds;
use waiters::PerMachine;

// Where each machine stops, and how many points are written.
#[derive(Clone, Copy)]
pub struct Written {
    pub plain: Option<Stop>,
    pub table: Option<Stop>,
    pub count: usize,
}

// The point that both machines are at, behind each machine's notices at the point before.
fn write_point(
    out: &mut [u8],
    at: usize,
    bounds: Bounds,
    guards: usize,
    holds: &[u16; machine::STATES],
    going: Going,
    before: PerMachine<u16>,
) -> usize
    ensures { (m : Monitor) (s : ℕ) (fs : List machine.Frame) (k : ℕ)
        → PointStands m s fs k bounds guards holds.now going before.plain before.table
        → at + 49 ≤ length out.old
        → Writes (point_at m s fs k) out.old at result out.new × (length (point_at m s fs k) ≡ 49) }
{
    let Going { run, lost } = going;
    let values = variables::values_of(bounds, run.state);
    let places = point::place_bytes(run.threads.each);
    let turns = point::turn_bytes(run.threads.each);
    let holding = sets::below(holds[(run.state % machine::STATE_END) as usize], guards);
    let now = run.plain;
    let told = sets::minus(now, before.plain);
    let (there, table) = match lost {
        Some(_) => (0, Notices { now: 0, told: 0 }),
        None => {
            let told = sets::minus(run.table, before.table);
            (
                1,
                Notices {
                    now: run.table,
                    told,
                },
            )
        }
    };
    let point = Point {
        values,
        places,
        guards: holding,
        plain: Notices { now, told },
        there,
        table,
        turns,
    };
    point::put_point(out, at, &point)
}

// The points behind the first one, from a place of the buffer on.
fn write_rest(
    bounds: Bounds,
    guards: usize,
    bytes: &[u8],
    first: Going,
    slices: &Slices,
    out: &mut [u8],
    next: usize,
) -> Written
    ensures { (m : Monitor) (kept : List ℕ) (fs : List machine.Frame) (s : ℕ) (before : List ℕ)
        → PointsAsked bytes.now s bounds guards slices.now.holds.now slices.now.after.now slices.now.guard_of.now
        slices.now.begins.now slices.now.goes_on.now slices.now.entries.now slices.now.regions before m kept fs
        → length before ≡ length out.old
        → Way (model m) s fs first 0 → Listed m s fs 1 before next out.old
        → WritesPoints m s fs result before out.new }
{
    let mut going = first;
    let mut to = next;
    let lines = bytes.len().div_ceil(trace::FRAME);
    for k in 0..lines {
        let passed = run::frames::pass(going, bytes, k * trace::FRAME, k, slices);
        if let Err(refusal) = passed.answer {
            let count = k + 1;
            return Written {
                plain: Some(Stop { refusal, frame: k }),
                table: passed.going.lost,
                count,
            };
        }
        to = write_point(
            out,
            to,
            bounds,
            guards,
            slices.holds,
            passed.going,
            PerMachine {
                plain: going.run.plain,
                table: going.run.table,
            },
        );
        going = passed.going;
    }
    let count = lines + 1;
    Written {
        plain: None,
        table: going.lost,
        count,
    }
}

// The points of a trace whose every line is a frame, from a state with all threads idle.
pub fn write_points(
    bounds: Bounds,
    guards: usize,
    bytes: &[u8],
    state: StateNumber,
    slices: &Slices,
    out: &mut [u8],
) -> Written
    ensures { (m : Monitor) (kept : List ℕ) (fs : List machine.Frame)
        → PointsAsked bytes.now state bounds guards slices.now.holds.now slices.now.after.now slices.now.guard_of.now
        slices.now.begins.now slices.now.goes_on.now slices.now.entries.now slices.now.regions out.old m kept fs
        → WritesPoints m state fs result out.old out.new }
{
    let first = Going {
        run: stepper::start(state),
        lost: None,
    };
    let none = PerMachine::alike(0);
    let next = write_point(out, 0, bounds, guards, slices.holds, first, none);
    write_rest(bounds, guards, bytes, first, slices, out, next)
}
