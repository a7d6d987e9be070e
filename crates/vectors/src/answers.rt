// What infer and run answer and write, as text: a line of the answer's fields, a line for each type entry, and one for each record.
use engine::{InferAnswer, RunAnswer};
use std::io;

// The 16-bit number at `at` of the bytes, or 0 where there is none.
fn number_at(bytes: &[u8], at: usize) -> u16 {
    match bytes.get(at..) {
        Some([low, high, ..]) => u16::from_le_bytes([*low, *high]),
        _ => 0,
    }
}

// The same of 32 bits.
fn long_number_at(bytes: &[u8], at: usize) -> u32 {
    match bytes.get(at..) {
        Some([first, second, third, fourth, ..]) => {
            u32::from_le_bytes([*first, *second, *third, *fourth])
        }
        _ => 0,
    }
}

// The line of type entry n, which these bytes are.
fn print_entry(rt: &impl Print, entry: &[u8], n: usize) -> io::Result<()> {
    println!(rt;
        "type {n} {} {} {}",
        number_at(entry, 0),
        number_at(entry, 2),
        number_at(entry, 4)
    )
}

// The line of record n, which these bytes are.
fn print_record(rt: &impl Print, record: &[u8], n: usize) -> io::Result<()> {
    println!(rt;
        "{n} {} {} {} {} {} {} {}",
        number_at(record, 0),
        number_at(record, 2),
        number_at(record, 4),
        number_at(record, 6),
        number_at(record, 8),
        number_at(record, 10),
        long_number_at(record, 12)
    )
}

// The lines of the type entries of a table.
fn print_entries(rt: &impl Print, table: &[u8]) -> io::Result<()> {
    for (i, entry) in table.chunks_exact(6).enumerate() {
        print_entry(rt, entry, i + 1)?;
    }
    Ok(())
}

// The lines of records.
fn print_records(rt: &impl Print, records: &[u8]) -> io::Result<()> {
    for (i, record) in records.chunks_exact(16).enumerate() {
        print_record(rt, record, i + 1)?;
    }
    Ok(())
}

// The lines of the type table and the records of a written program, which other bytes may follow.
fn print_program(rt: &impl Print, bytes: &[u8]) -> io::Result<()> {
    let middle = 4 + 6 * usize::from(number_at(bytes, 0));
    let end = middle + 16 * usize::from(number_at(bytes, 2));
    if let (Some(table), Some(records)) = (bytes.get(4..middle), bytes.get(middle..end)) {
        print_entries(rt, table)?;
        print_records(rt, records)?;
    }
    Ok(())
}

// The line of infer's answer.
fn print_inferred(rt: &impl Print, answer: &InferAnswer) -> io::Result<()> {
    println!(rt;
        "number={} place={} root={} length={}",
        answer.number, answer.place, answer.root_type, answer.written
    )
}

// What infer makes of the program.
pub fn print_infer(rt: &impl Print, program: &[u8]) -> io::Result<()> {
    let mut output = [0u8; engine::OUTPUT];
    let mut work = [0u8; engine::WORK];
    let answer = engine::infer(program, &mut output, &mut work);
    print_inferred(rt, &answer)?;
    // Accepted, as the answer for C has it.
    if answer.number == 0 {
        print_program(rt, &output)?;
    }
    Ok(())
}

// The line of a run's answer.
fn print_ran(rt: &impl Print, answer: &RunAnswer) -> io::Result<()> {
    println!(rt;
        "number={} place={} ending={} steps={} root={} length={} replaced={}",
        answer.number,
        answer.place,
        answer.ending,
        answer.steps,
        answer.root_type,
        answer.written,
        answer.replaced
    )
}

// What run makes of an input, 4 bytes of fuel and a program.
pub fn print_run(rt: &impl Print, input: &[u8]) -> io::Result<()> {
    if input.len() < 4 {
        return Ok(());
    }
    let fuel = long_number_at(input, 0);
    let mut output = [0u8; engine::OUTPUT];
    let mut work = [0u8; engine::WORK];
    let answer = engine::run(&input[4..], fuel, &mut output, &mut work);
    print_ran(rt, &answer)?;
    // Accepted, as the answer for C has it.
    if answer.number == 0 {
        print_program(rt, &output)?;
    }
    Ok(())
}
