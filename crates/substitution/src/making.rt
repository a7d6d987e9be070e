// The terms that arguments stand for, written out.
ghost use Rattle.kinds.specs.Named.{kind_meant};
ghost use Rattle.records.specs.View.{records_in};
ghost use Rattle.substitution.specs.declared.arguments.Argument.TheVariants.{Tree, Quote, Opened};
ghost use Rattle.substitution.specs.Making.{CanPutOver, PutsOver, CanCopyArgument, CopiesArgument};

use crate::arguments::Argument;
use copies::{copy_block, copy_raised, copy_wrapped, tree_size};
use kinds::Kind;
use records::Record;
use terms::mark_root;

// Writes a root to `dst` over the tree that stands after it, with its measures. Returns the place after that tree.
fn put_over(w: &mut [u8], dst: usize, kind: Kind, ty: u16, a: u16) -> usize
    requires { CanPutOver (records_in w.old) dst (kind_meant kind) }
    ensures { PutsOver (records_in w.old) (records_in w.new) dst (kind_meant kind) ty a result }
{
    let made = Record {
        kind: kind.number(),
        ty,
        a,
        b: 0,
        first: 0,
        next: 0,
        value: 0,
    };
    records::put(w, dst, made);
    mark_root(w, dst)
}

// Copies the tree at `at` itself, as a block where nothing is raised.
fn copy_tree(w: &mut [u8], at: usize, dst: usize, n: u16) -> usize
    requires { CanCopyArgument (records_in w.old) (Tree at) dst n }
    ensures { CopiesArgument (records_in w.old) (records_in w.new) (Tree at) dst n result }
{
    let size = tree_size(w, at);
    if n == 0 {
        return copy_block(w, at, dst, size);
    }
    copy_raised(w, at, dst, n, 0);
    dst + size
}

// Copies it under a quote of type `ty`.
fn copy_quoted(w: &mut [u8], at: usize, ty: u16, dst: usize, n: u16) -> usize
    requires { CanCopyArgument (records_in w.old) (Quote at ty) dst n }
    ensures { CopiesArgument (records_in w.old) (records_in w.new) (Quote at ty) dst n result }
{
    copy_tree(w, at, dst + 1, n);
    put_over(w, dst, Kind::Quote, ty, 0)
}

// Copies it, the uses of its outermost variable wrapped, under a quote of type `b` and a function of type `ty` with argument type `a`.
fn copy_opened(w: &mut [u8], at: usize, ty: u16, a: u16, b: u16, dst: usize, n: u16) -> usize
    requires { CanCopyArgument (records_in w.old) (Opened at ty a b) dst n }
    ensures { CopiesArgument (records_in w.old) (records_in w.new) (Opened at ty a b) dst n result }
{
    let inner = dst + 1;
    copy_wrapped(w, at, inner + 1, n, 0, a);
    put_over(w, inner, Kind::Quote, b, 0);
    put_over(w, dst, Kind::Function, ty, a)
}

// Writes the term that an argument stands for to `dst`, its free indices raised by n. Returns the place after it.
pub fn copy_argument(w: &mut [u8], g: Argument, dst: usize, n: u16) -> usize
    requires { CanCopyArgument (records_in w.old) g dst n }
    ensures { CopiesArgument (records_in w.old) (records_in w.new) g dst n result }
{
    match g {
        Argument::Tree(at) => copy_tree(w, at, dst, n),
        Argument::Quote(at, ty) => copy_quoted(w, at, ty, dst, n),
        Argument::Opened(at, ty, a, b) => copy_opened(w, at, ty, a, b, dst, n),
    }
}
