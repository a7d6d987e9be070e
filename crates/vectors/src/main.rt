// Prints the name and the listing of each input that the file `names` names, one name to a line, and then of each that `infers` names what infer
// answers and writes, and of each that `runs` names what run does. A file that can't be read ends the program with an error.
#![tactic(auto)]

mod answers; // what infer and run answer and write, as text

use reading::INPUT;
use std::rt::Files;
use std::{fs, io};

// Prints the name of the file, and of its input what `print` prints.
fn print_file<R: Files + Print, F: Fn(&[u8]) -> io::Result<()>>(
    rt: &R,
    name: &str,
    print: &F,
) -> io::Result<()>
    requires { F.IsAlwaysCallable print.now }
{
    let mut input = [0u8; INPUT];
    let n = reading::read_file(rt, name, &mut input)?;
    rt.println(name)?;
    print(&input[..n])
}

// The same of each file that the text names, one name to a line.
fn print_files<R: Files + Print, F: Fn(&[u8]) -> io::Result<()>>(
    rt: &R,
    names: &str,
    print: F,
) -> io::Result<()>
    requires { F.IsAlwaysCallable print }
{
    for name in names.lines() {
        print_file(rt, name, &print)?;
    }
    Ok(())
}

// The same of each file that the file `list` names.
fn print_list<R: Files + Alloc + Print, F: Fn(&[u8]) -> io::Result<()>>(
    rt: &R,
    list: &str,
    print: F,
) -> io::Result<()>
    requires { F.IsAlwaysCallable print }
{
    let names = fs::read_to_string(rt, list)?;
    print_files(rt, names.as_str(), print)
}

fn main(rt: HostRuntime) -> io::Result<()> {
    print_list(&rt, "names", |input| printing::print_listing(&rt, input))?;
    print_list(&rt, "infers", |input| answers::print_infer(&rt, input))?;
    print_list(&rt, "runs", |input| answers::print_run(&rt, input))
}
