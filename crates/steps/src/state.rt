// A run's state by value, and its step.
ghost use Rattle.records.specs.View.{entries_in, records_in};
ghost use Rattle.steps.specs.Stepping.{HasTerm, SeeksTerm, HasRun, TellsValue, CanStep, Stepped};
ghost use Rattle.steps.specs.Contracting.{Aims, CanProceed, Proceeds};
ghost use Rattle.steps.specs.Starting.{CanStart, Starts};
ghost use Rattle.steps.specs.Output.{Settles, CanWriteOut, WritesOut};

use crate::events::Event;
use contraction::{Plan, Rule};
use navigation::Turn;
use seeking::seek_from;
use zipper::{Ahead, Focus};

// How many records a term may have.
const MOST: usize = kinds::MOST_RECORDS as usize;

// How many slots of the work buffer hold the term around its focus.
const SLOTS: usize = 4096;

// Where a run stands: at a focus that is to be searched, at a value, or at the record that is rewritten next. `steps` are made.
#[derive(Clone, Copy)]
pub struct State {
    pub turn: Turn,
    pub steps: u32,
}

// A step that is made: the state after it, and its event.
#[derive(Clone, Copy)]
pub struct Step {
    pub state: State,
    pub event: Event,
}

// What becomes of the focus: by which rule, what is planned, the first slot that is free for it, and the hole that it fills.
#[derive(Clone, Copy)]
struct Aim {
    rule: Rule,
    plan: Plan,
    free: usize,
    hole: Ahead,
}

// What is made of the focus: the next one, and the event.
#[derive(Clone, Copy)]
struct Advance {
    next: Ahead,
    event: Event,
}

impl State {
    // The state before the first step: the tree of the root of a program's records, in the last slots.
    pub fn start(records: &[u8], work: &mut [u8]) -> State
        requires { CanStart (records_in records.now) (records_in work.old) }
        ensures { Starts (records_in records.now) (records_in work.new) result }
    {
        let count = records::record_count(records);
        let r = SLOTS - (count as usize);
        terms::load(records, 1, count, work, r);
        let first = Ahead {
            l: 0,
            r,
            top: 0,
            level: 0,
        };
        State {
            turn: Turn::Next(first),
            steps: 0,
        }
    }

    // The same term at its redex, or at the value that it is.
    pub fn seek(self, work: &mut [u8]) -> State
        requires { HasTerm (records_in work.old) self }
        ensures { SeeksTerm (records_in work.old) (records_in work.new) self result }
    {
        let turn = self.turn;
        match turn {
            Turn::Next(a) => State {
                turn: seek_from(work, a),
                steps: self.steps,
            },
            Turn::Value(_) => self,
            Turn::Redex(_, _) => self,
            Turn::Match(_) => self,
        }
    }

    // What becomes of the focus, which is rewritten.
    fn aim(self, table: &[u8], work: &[u8]) -> Aim
        requires { CanStep (entries_in table.now) (records_in work.now) self }
        ensures { Aims (entries_in table.now) (records_in work.now) self result }
    {
        let turn = self.turn;
        match turn {
            Turn::Redex(z, level) => Aim {
                rule: contraction::whole_rule(work, z.s),
                plan: contraction::plan_whole(work, z.s),
                free: z.l,
                hole: zipper::hole_of(z, level),
            },
            Turn::Match(z) => {
                let rule = matching::match_rule(table, work, z.top, z.r);
                Aim {
                    rule,
                    plan: matching::plan_match(table, work, z.top, z.r, rule),
                    free: z.l,
                    hole: zipper::dropped(work, z),
                }
            }
            Turn::Value(_) | Turn::Next(_) => unreachable!(),
        }
    }

    // Makes what the focus becomes and puts it into the hole. There is room for it; the slots from `aim.free` to the right side are free.
    fn proceed(self, work: &mut [u8], aim: Aim) -> Advance
        requires { CanProceed (records_in work.old) self aim }
        ensures { Proceeds (records_in work.old) (records_in work.new) self aim result }
    {
        let plan = aim.plan;
        let hole = aim.hole;
        let made = contraction::make(work, plan, aim.free);
        Advance {
            next: zipper::put_ahead(work, hole, made.at, made.size),
            event: Event {
                rule: aim.rule,
                place: (hole.l + 1) as u16,
                replaced: made.replaced as u32,
            },
        }
    }

    // One step of a term that isn't a value: the state at the next term, or none where that has more than 2,048 records, and the term stays as it is.
    pub fn step(mut self, table: &[u8], work: &mut [u8]) -> Option<Step>
        requires { CanStep (entries_in table.now) (records_in work.old) self }
        ensures { Stepped (entries_in table.now) (records_in work.old) (records_in work.new) self result }
    {
        let aim = self.aim(table, work);
        let plan = aim.plan;
        if contraction::fits(work, plan, aim.hole.r - aim.hole.l - MOST) {
            let made = self.proceed(work, aim);
            self.turn = Turn::Next(made.next);
            self.steps += 1;
            return Some(Step {
                state: self,
                event: made.event,
            });
        }
        None
    }

    // Whether the term is a value.
    pub fn is_value(self) -> bool
        ensures { TellsValue self result }
    {
        matches!(self.turn, Turn::Value(_))
    }

    // The focus, brought before the gap where it isn't.
    fn settle(self, work: &mut [u8]) -> Focus
        requires { HasRun (records_in work.old) self }
        ensures { Settles (records_in work.old) (records_in work.new) self result }
    {
        let turn = self.turn;
        match turn {
            Turn::Next(a) => zipper::bring(work, a),
            Turn::Value(z) => z,
            Turn::Redex(z, _) => z,
            Turn::Match(z) => z,
        }
    }

    // Closes every frame, writes the table and the term as a program, and tells its length.
    pub fn write_out(self, table: &[u8], work: &mut [u8], out: &mut [u8]) -> usize
        requires { CanWriteOut table.now (records_in work.old) self out.old }
        ensures { WritesOut table.now (records_in work.old) self out.old out.new result }
    {
        let z = self.settle(work);
        let whole = zipper::close_all(work, z);
        writing::write_program(table, &work[..16 * whole.l], out)
    }
}
