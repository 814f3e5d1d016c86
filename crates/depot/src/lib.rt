// A depot in one call: one rule's code is run for each crew. The crews' stores lie back to back, and table and code are checked once for all.
#![tactic(auto)]

ghost use Rattle.std.specs.Prelude.{◌≡◌, not, Ok, length};
ghost use Rattle.rules.specs.Answer.{ended};
ghost use Rattle.rules.specs.Refusal.{refuse, ◌or_else◌};
ghost use Rattle.table.specs.Checking.{answer};
ghost use Rattle.instructions.specs.Admission.{admission};
ghost use Rattle.depot.specs.Depot.{crew_words, depot_refusal, lent, crews_run, depot};
ghost use Rattle.depot.specs.inside.Ready.{Ready};

use rules::{End, Halt, Reason, Refusal};

// A crew's words: verdict, label and steps. No crew is refused: what would refuse it has refused the depot.
fn tell(run: End<Halt>, words: &mut [u32])
    requires { length words.old ≡ 3 }
    ensures { words.new ≡ crew_words (Ok run) }
{
    let (verdict, halt) = match run {
        End::Finished(halt) => (0, halt),
        End::OutOfFuel(halt) => (1, halt),
    };
    words.copy_from_slice(&[verdict, halt.label, halt.steps]);
}

// Crew by crew: its part of the stores is lent on to the code run, and its words are written. By index: of what `chunks_exact_mut` lent, a proof
// knows afterwards the length alone.
fn run_crews(
    table: &[u32],
    code: &[u32],
    start: u32,
    stores: &mut [i32],
    fuel: u32,
    room: &mut [u32],
)
    requires { Ready table.now code.now start stores.old room.old }
    ensures { lent stores.new room.new
        ≡ crews_run table.now code.now start stores.old fuel room.old }
{
    let crews = stores.len() / 32;
    for i in 0..crews {
        let from = 32 * i;
        let run = code::run_admitted(table, code, start, &mut stores[from..from + 32], fuel);
        let at = 3 * i;
        tell(run, &mut room[at..at + 3]);
    }
}

// Each function takes the call's own parameters, in C's order: a struct of them would be made in `run_depot` alone, only to be taken apart for the
// check and the runs.

// Refusals 1 to 11 and 13, and then 16: `fits` tells whether the stores have a depot's length, `short` whether the room is too small.
fn check_all(
    table: &[u32],
    code: &[u32],
    start: u32,
    fits: bool,
    short: bool,
) -> Result<(), Refusal>
    ensures { result ≡ answer (admission table.now code.now start (refuse (not fits) 10 0) or_else refuse short 16 0) }
{
    instructions::admit(table, code, start, fits)?;
    if short {
        return Err(Reason::DepotRoom.at(0));
    }
    Ok(())
}

fn admit(
    table: &[u32],
    code: &[u32],
    start: u32,
    stores: &[i32],
    room: &[u32],
) -> Result<(), Refusal>
    ensures { result ≡ answer (depot_refusal table.now code.now start stores.now room.now) }
{
    let values = stores.len();
    let fits = (values % 32 == 0) & (values <= 16384);
    let short = room.len() < 3 * (values / 32);
    check_all(table, code, start, fits, short)
}

// The crews' code runs, on stores that lie back to back, and each crew's verdict, label and steps.
pub fn run_depot(
    table: &[u32],
    code: &[u32],
    start: u32,
    stores: &mut [i32],
    fuel: u32,
    room: &mut [u32],
) -> Result<(), Refusal>
    ensures { ended result (lent stores.new room.new)
        ≡ depot table.now code.now start stores.old fuel room.old }
{
    admit(table, code, start, stores, room)?;
    run_crews(table, code, start, stores, fuel, room);
    Ok(())
}
