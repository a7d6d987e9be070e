// The infer call, for programs of the first edition whose types are omitted. It has no condition: any bytes and buffers get an answer, and the contract
// fixes every field of it and every byte of the output. What it keeps for itself until it knows that the program is accepted, the types and the
// growing table, stands in local arrays.
#![tactic(auto)]

ghost use Rattle.std.specs.Prelude.{◌≡◌, length};
ghost use Rattle.rules.specs.Editions.{first_edition};
ghost use Rattle.rules.specs.FieldUses.{omitted};
ghost use Rattle.rules.specs.Refusals.{◌then◌};
ghost use Rattle.rules.specs.Check.{layout_refusal};
ghost use Rattle.rules.specs.Run.{buffers_refusal};
ghost use Rattle.refusals.specs.Reports.{Reports};
ghost use Rattle.infer_call.specs.Answers.{infer_meant, refused_by, CanType, CanTypeWith, CanWriteFilled, Types, Inferred};

use refusals::Refusal;
use tables::Table;

// The bytes of a table of 257 entries: one more than a table may have is made before it is refused.
const TABLE: usize = 1542;

const RECORDS: usize = kinds::MOST_RECORDS as usize;

// What infer answers. Accepted: number and place are 0, the root's type and the written length. Refused: the number and place of documents 01 and 02,
// and the other fields 0. C reads it, so that an answer is numbers, and each call has a struct of its own.
#[repr(C)]
#[derive(Clone, Copy)]
pub struct InferAnswer {
    pub number: u32,
    pub place: u32,
    pub root_type: u32,
    pub written: u32,
}

// The answer of a refused call.
fn refusing(refusal: Refusal) -> InferAnswer
    ensures { infer_meant result ≡ refused_by refusal }
{
    InferAnswer {
        number: refusal.reason.number() as u32,
        place: refusal.place as u32,
        root_type: 0,
        written: 0,
    }
}

// Writes a program of good layout with its types, which are `given`, and the table that has them.
fn write_filled(
    program: &[u8],
    output: &mut [u8],
    work: &mut [u8],
    table: &[u8],
    given: &[u16],
    root: u16,
) -> InferAnswer
    requires { CanWriteFilled program.now output.old work.old table.now given.now root }
    ensures { Types program.now output.old output.new work.old work.new result }
{
    let parts = parts::parts_of(program);
    let written = retyping::write_typed(parts.records, given, table, work, output);
    InferAnswer {
        number: 0,
        place: 0,
        root_type: root as u32,
        written: written as u32,
    }
}

// Types a program of good layout, and writes it where no record is faulty, in a work buffer of just the length that a run needs. The table grows in
// `bytes`, and the types stand in `given`.
fn type_with(
    program: &[u8],
    output: &mut [u8],
    work: &mut [u8],
    bytes: &mut [u8],
    given: &mut [u16],
) -> InferAnswer
    requires { CanTypeWith program.now output.old work.old bytes.old given.old }
    ensures { Types program.now output.old output.new work.old work.new result }
{
    let parts = parts::parts_of(program);
    let last = records::record_count(parts.records) as usize;
    writing::copy_bytes(parts.table, bytes, 0);
    let mut table = Table::of(bytes, records::entry_count(parts.table));
    match filling::fill_all(parts.records, &mut table, &mut given[..last]) {
        Ok(root) => write_filled(program, output, work, table.entries(), &given[..last], root),
        Err(refusal) => refusing(refusal),
    }
}

// The same, with arrays of its own.
fn type_program(program: &[u8], output: &mut [u8], work: &mut [u8]) -> InferAnswer
    requires { CanType program.now output.old work.old }
    ensures { Types program.now output.old output.new work.old work.new result }
{
    let mut table = [0u8; TABLE];
    let mut given = [0u16; RECORDS];
    type_with(program, output, work, &mut table, &mut given)
}

// The refusal of a call by its buffers' lengths and by the program's layout, or none.
fn call_refusal(program: &[u8], output: &[u8], work: &[u8]) -> Result<(), Refusal>
    ensures { Reports result (buffers_refusal (length output.now) (length work.now) then layout_refusal omitted first_edition program.now) }
{
    lending::buffers_refusal(output.len(), work.len())?;
    checker::layout_refusal(program, kinds::first_edition())
}

// Types a program of any bytes whose type fields are all 0, with buffers of any length.
pub fn infer(program: &[u8], output: &mut [u8], work: &mut [u8]) -> InferAnswer
    ensures { Inferred program.now output.old work.old result output.new work.new }
{
    match call_refusal(program, output, work) {
        Ok(()) => type_program(program, output, &mut work[..lending::WORK]),
        Err(refusal) => refusing(refusal),
    }
}
