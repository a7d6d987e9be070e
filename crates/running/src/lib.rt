// The run of a program that is passed: its first term, steps until a value, spent fuel or a full table, and what is written then.
#![tactic(auto)]

ghost use Rattle.std.specs.Prelude.{◌≡◌};
ghost use Rattle.rules.specs.Editions.{first_edition};
ghost use Rattle.rules.specs.Run.{ending_number};
ghost use Rattle.records.specs.View.{entries_in, records_in};
ghost use Rattle.running.specs.Looping.{CanRun, RunsOut};
ghost use Rattle.running.specs.Endings.{ending_meant};
ghost use Rattle.running.specs.Finishing.{CanFinish, Finishes};
ghost use Rattle.running.specs.Programs.{CanRunProgram, RunsProgram};

use steps::State;

// How a run ends, with its number.
#[derive(Clone, Copy, PartialEq, Eq)]
pub enum Ending {
    Value = 1,
    Spent,
    Full,
}

impl Ending {
    // Its number.
    pub fn number(self) -> u32
        ensures { result ≡ ending_number (ending_meant self) }
    {
        self as u32
    }
}

// Where a run halts: its last state, how it ended, and how many variables gave way in all its steps.
#[derive(Clone, Copy)]
struct Halted {
    state: State,
    ending: Ending,
    replaced: u64,
}

// Steps until the term is a value, the fuel is spent or the table is full: "ending value if the term is a value; else spent if n is the fuel; else full".
// What gives way in each step that is made is added up.
fn run_steps(start: State, table: &[u8], fuel: u32, work: &mut [u8]) -> Halted
    requires { CanRun (entries_in table.now) (records_in work.old) start }
    ensures { RunsOut (entries_in table.now) fuel (records_in work.old) (records_in work.new) start result }
{
    let mut s = start;
    let mut replaced: u64 = 0;
    loop {
        s = s.seek(work);
        if s.is_value() {
            return Halted {
                state: s,
                ending: Ending::Value,
                replaced,
            };
        }
        if fuel <= s.steps {
            return Halted {
                state: s,
                ending: Ending::Spent,
                replaced,
            };
        }
        match s.step(table, work) {
            Some(made) => {
                s = made.state;
                replaced += made.event.replaced as u64;
            }
            None => {
                return Halted {
                    state: s,
                    ending: Ending::Full,
                    replaced,
                };
            }
        }
    }
}

// What a run came to: how it ended, the steps made, how many variables gave way in them, and the bytes written.
#[derive(Clone, Copy)]
pub struct Completion {
    pub ending: Ending,
    pub steps: u32,
    pub replaced: u64,
    pub written: u32,
}

// Runs the first term and writes the last one out, under this table.
fn finish(start: State, table: &[u8], fuel: u32, work: &mut [u8], output: &mut [u8]) -> Completion
    requires { CanFinish table.now (records_in work.old) start output.old }
    ensures { Finishes table.now fuel (records_in work.old) start output.old output.new result }
{
    let halted = run_steps(start, table, fuel, work);
    let last = halted.state;
    let written = last.write_out(table, work, output);
    Completion {
        ending: halted.ending,
        steps: last.steps,
        replaced: halted.replaced,
        written: written as u32,
    }
}

// Runs a program that is passed, in a work buffer of just the length that a run needs.
#[tactic(auto, using(crate::proofs::Programs::running_programs))]
pub fn run_program(program: &[u8], fuel: u32, output: &mut [u8], work: &mut [u8]) -> Completion
    requires { CanRunProgram first_edition program.now output.old work.old }
    ensures { RunsProgram program.now fuel output.old output.new result }
{
    let parts = parts::parts_of(program);
    let start = State::start(parts.records, work);
    finish(start, parts.table, fuel, work, output)
}
