// Own words of nodes, written into lent words. Internal: the pass calls these on its work words.
ghost use Rattle.std.specs.Prelude.{[], ◌∷◌, ◌+◌, ◌≤◌, ◌<◌, ◌^◌, length};
ghost use Rattle.spec.specs.Grammar.{header as Grammar·header};
ghost use Rattle.spec.specs.Tree.{boolean, const_words};
ghost use Rattle.tables.specs.Kinds.{class_number};
ghost use Rattle.ir.specs.Written.{Written};

use tables::details::Class;
use tables::exprs::ExprKind;
use tables::header::header_of;
use tables::kind::Kind;

// Writes a word, and answers the place behind it: a list's count word, for one, behind which its statements begin.
#[tactic(auto, using(crate::proofs::Writes::write_one))]
pub fn write_word(words: &mut [u32], at: usize, word: u32) -> usize
    requires { at < length words.old }
    ensures { Written words.old words.new at (word ∷ []) result }
{
    words[at] = word;
    at + 1
}

// Writes the header of a node of a kind, and answers where its payload and parts begin.
pub fn write_head<K: Kind>(words: &mut [u32], at: usize, kind: K, detail: u32) -> usize
    requires { (at < length words.old) × (detail < 2 ^ 24) }
    ensures { Written words.old words.new at (Grammar·header (K.number kind) detail ∷ []) result }
{
    let h = header_of(kind, detail);
    write_word(words, at, h)
}

// Writes a constant of a class that has one payload word, and answers where it ends.
#[tactic(auto, using(crate::proofs::Writes::write_two))]
pub fn write_const(words: &mut [u32], at: usize, class: Class, word: u32) -> usize
    requires { at + 2 ≤ length words.old }
    ensures { Written words.old words.new at (Grammar·header 1 (class_number class) ∷ word ∷ []) result }
{
    let pay = write_head(words, at, ExprKind::Const, class.number());
    write_word(words, pay, word)
}

// Writes the constant True or False, and answers where it ends.
pub fn write_bool(words: &mut [u32], at: usize, b: bool) -> usize
    requires { at + 2 ≤ length words.old }
    ensures { Written words.old words.new at (const_words (boolean b)) result }
{
    write_const(words, at, Class::Bool, b as u32)
}
