// The C library: each call of the crate boundary, exported to C under its own name, with its own clauses. include/rillgiggle.h has the calls for C.
#![tactic(auto)]

ghost use Rattle.std.specs.Prelude.{◌≡◌};
ghost use Rattle.rules.specs.Answer.{ended};
ghost use Rattle.depot.specs.Depot.{lent};
ghost use Rattle.boundary.specs.Calls.{check_call, compile_call, source_call, code_call, depot_call, read_call, write_call, rule_call};

#[unsafe(no_mangle)]
pub extern "C" fn rill_check(table: &[u32], answer: &mut [u32; 8])
    ensures { answer.new ≡ check_call table.now }
{
    boundary::rill_check(table, answer);
}

#[unsafe(no_mangle)]
pub extern "C" fn rill_compile(table: &[u32], start: u32, room: &mut [u32], answer: &mut [u32; 8])
    ensures { ended answer.new room.new ≡ compile_call table.now start room.old }
{
    boundary::rill_compile(table, start, room, answer);
}

#[unsafe(no_mangle)]
pub extern "C" fn rill_run_source(
    table: &[u32],
    store: &mut [i32],
    fuel: u32,
    answer: &mut [u32; 8],
)
    ensures { ended answer.new store.new ≡ source_call table.now store.old fuel }
{
    boundary::rill_run_source(table, store, fuel, answer);
}

#[unsafe(no_mangle)]
pub extern "C" fn rill_run_code(
    table: &[u32],
    code: &[u32],
    start: u32,
    store: &mut [i32],
    fuel: u32,
    answer: &mut [u32; 8],
)
    ensures { ended answer.new store.new ≡ code_call table.now code.now start store.old fuel }
{
    boundary::rill_run_code(table, code, start, store, fuel, answer);
}

#[unsafe(no_mangle)]
pub extern "C" fn rill_run_depot(
    table: &[u32],
    code: &[u32],
    start: u32,
    stores: &mut [i32],
    fuel: u32,
    room: &mut [u32],
    answer: &mut [u32; 8],
)
    ensures { ended answer.new (lent stores.new room.new)
        ≡ depot_call table.now code.now start stores.old fuel room.old }
{
    boundary::rill_run_depot(table, code, start, stores, fuel, room, answer);
}

#[unsafe(no_mangle)]
pub extern "C" fn rill_read_text(text: &[u8], room: &mut [u32], answer: &mut [u32; 8])
    ensures { ended answer.new room.new ≡ read_call text.now room.old }
{
    boundary::rill_read_text(text, room, answer);
}

#[unsafe(no_mangle)]
pub extern "C" fn rill_write_text(words: &[u32], room: &mut [u8], answer: &mut [u32; 8])
    ensures { ended answer.new room.new ≡ write_call words.now room.old }
{
    boundary::rill_write_text(words, room, answer);
}

#[unsafe(no_mangle)]
pub extern "C" fn rill_read_rule(text: &[u8], room: &mut [u32], answer: &mut [u32; 8])
    ensures { ended answer.new room.new ≡ rule_call text.now room.old }
{
    boundary::rill_read_rule(text, room, answer);
}
