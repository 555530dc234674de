// What is said of a line that is not of the format (docs/FORMAT.md): what was expected there.
#![tactic(auto)]

ghost use Rattle.std.specs.Prelude.{◌≡◌};
ghost use Rattle.text_out.specs.Outs.{then_put};
ghost use Rattle.list_messages.specs.Messages.{form_text, bad_text};

use list_memory::Form;
use text_out::Out;

// What was expected, by the form.
// kept: a table by hand, since the texts are the format's, whole lines most of them, and no variants' names.
#[tactic(auto, unfolding(crate::specs::Messages::form_text))]
fn expected(form: Form) -> &'static [u8]
    ensures { result.now ≡ form_text form }
{
    match form {
        Form::Printable => b"printable ASCII, no tab and no CR",
        Form::Length => b"at most 200 bytes",
        Form::List => b"list before any other line",
        Form::Question => b"a question before an answer",
        Form::Asked => b"?, = or list after a question",
        Form::Keyword => b"a word that begins a line of the format",
        Form::Next => b"the next number in the name of the new row",
        Form::Bare => b"bare, before any other sort",
        Form::Sort =>
            b"sort sK List S (or Set, FSet, Bag, FBag), sort sK fn S ... -> S, sort sK Def N, sort sK \
            TypeVar N, sort sK unit or sort sK raw N N N N",
        Form::Node =>
            b"node nK List P (or Set, FSet, Bag, FBag), node nK fn P ... -> P, node nK var vN or node \
            nK raw N N N N",
        Form::Entries => b"entries N ...",
        Form::NodeEntries => b"node-entries N ...",
        Form::Pad => b"pad sorts N, pad entries N, pad nodes N or pad node-entries N",
        Form::Var => b"var vK nJ",
        Form::Vars => b"vars N",
        Form::Bind => b"bind vN P",
        Form::Unbound => b"a variable of a line above that has no binding yet",
        Form::Expr => b"expr eK P",
        Form::Name => b"name eN variable, name eN builtin, name eN op S or name eN raw N N",
        Form::Names => b"at most 512 base names, which is what this program holds",
        Form::Default => b"default S",
        Form::Sub => b"sub P P",
        Form::Lit => b"lit P positive or lit P natural",
        Form::Comprehension => b"comprehension P P S",
        Form::Disjunction => b"disjunction eN P",
        Form::Overload =>
            b"overload variable P, overload builtin P, overload op S P or overload raw N N N",
        Form::Join => b"join P P ...",
        Form::Sources => b"sources P ...",
        Form::Constraint => b"constraint N N N N N",
        Form::Count =>
            b"count WHAT N, where WHAT is sorts, entries, nodes, node-entries, vars, exprs, names, \
            constraints, overloads or sources",
        Form::Lend =>
            b"lend WHAT N, where WHAT is sorts, nodes, bindings, exprs, names, constraints, overloads, \
            sources, scratch, index, out-typing, out-measure or out-choices",
        Form::Ceilings => b"no ceilings line: this program has the fixed ceilings",
        Form::Asks => b"? solve, or another question of the format",
    }
}

// The line, but for the number of the line that it speaks of.
// kept: of the shape of put_verdict of list_verdict, whose line begins with a number.
pub fn put_bad(form: Form, out: &mut Out<'_>)
    ensures { out.new ≡ then_put out.old (bad_text form) }
{
    out.put_text(b"expected ");
    out.put_text(expected(form));
    out.put_byte(b'\n');
}
