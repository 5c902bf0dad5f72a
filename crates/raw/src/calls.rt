// Runs a call on what was set. The call works on a copy of the table, so that every changed word can be reported.

ghost use Rattle.std.specs.Prelude.{◌≡◌, ◌≤◌, length, take, replicate};
ghost use Rattle.pretree.specs.Call.{after};
ghost use Rattle.lines.specs.Answering.{Runs};
ghost use Rattle.raw.specs.Outcome.{outcome, SetAfter};

use crate::report::Output;
use crate::state::State;
use crate::{Runner, report};
use lines::answer::CallResult;
use pretree::{Call, Header};

// Every word of the buffer has this value before each call. A listed word that has it too is not reported as changed.
pub(crate) const BLANK: u32 = 2863311530;

impl Runner {
    pub(crate) fn run(&mut self, call: Call)
        ensures { SetAfter call self.old.state self.old.table self.new.state self.new.table }
    {
        let Runner {
            state,
            table,
            copy,
            buffer,
            out,
        } = self;
        *state = run_on(call, *state, table, copy, buffer, out);
    }
}

// Runs the call, and then sets what it left, or nothing. The arrays are parameters, and no `&mut self`: the check does not lend parts of several
// fields of one `&mut`.
fn run_on(
    call: Call,
    mut state: State,
    table: &mut [u32],
    copy: &mut [u32],
    buffer: &mut [u32],
    out: &mut Output,
) -> State
    requires size_in_bounds { (state.size ≤ length table.old) × (state.size ≤ length copy.old) }
    requires room_in_bounds { state.room ≤ length buffer.old }
    ensures { SetAfter call state table.old result table.new }
{
    let result = run_on_prefixes(call, state, table, copy, buffer, out);
    if state.keep {
        table[..state.size].copy_from_slice(&copy[..state.size]);
        state.header = result.reply.header;
    }
    state
}

// Runs the call on the words of the arrays that were set, with `keep` and with `fresh`.
fn run_on_prefixes(
    call: Call,
    state: State,
    table: &[u32],
    copy: &mut [u32],
    buffer: &mut [u32],
    out: &mut Output,
) -> CallResult
    requires size_in_bounds { (state.size ≤ length table.now) × (state.size ≤ length copy.old) }
    requires room_in_bounds { state.room ≤ length buffer.old }
    ensures { Runs call (outcome call state table.now)
        result (take state.size copy.new) (take state.room buffer.new) }
{
    let table = &table[..state.size];
    let copy = &mut copy[..state.size];
    let buffer = &mut buffer[..state.room];
    run_and_report(call, state, table, copy, buffer, out)
}

// Runs the call and writes the report. The clause speaks of the copy and the buffer after the report, so that nothing changes them before it.
fn run_and_report(
    call: Call,
    state: State,
    table: &[u32],
    copy: &mut [u32],
    buffer: &mut [u32],
    out: &mut Output,
) -> CallResult
    requires { length copy.old ≡ length table.now }
    ensures { Runs call (after call state.header table.now (replicate (length buffer.old) 2863311530))
        result copy.new buffer.new }
{
    let result = run_on_copy(call, state.header, table, copy, buffer);
    report::outcome(out, state.lines, result.reply, table, copy, buffer);
    result
}

// The reply, the copy and the buffer are exactly what `after` says for this call on this header and table.
fn run_on_copy(
    call: Call,
    header: Header,
    table: &[u32],
    copy: &mut [u32],
    buffer: &mut [u32],
) -> CallResult
    requires { length copy.old ≡ length table.now }
    ensures { Runs call (after call header table.now (replicate (length buffer.old) 2863311530))
        result copy.new buffer.new }
{
    copy.copy_from_slice(table);
    buffer.fill(BLANK);
    lines::answer::run(call, header, copy, buffer)
}
