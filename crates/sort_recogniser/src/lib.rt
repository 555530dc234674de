// Recognising a line as a sort: nothing is stored, the steps of the sort are written into a buffer, parts first. The
// tokens are those of a reader that holds the line.
#![tactic(auto)]

ghost use Rattle.std.specs.Prelude.{OnOk, ◌≡◌, ◌+◌, ◌<◌, ◌≤◌, length, set, [], take, drop};
ghost use Rattle.resolved_sort.specs.Tree.{primitive};
ghost use Rattle.resolved_sort.specs.Storage.{kind_flat, kind_op, max_arguments};
ghost use Rattle.sort_text.specs.Tokens.{is_letter, skip, next};
ghost use Rattle.sort_text.specs.declared.Unread.TheVariants.{NotASort};
ghost use Rattle.sort_recogniser.specs.Inner.Says.{Met};
ghost use Rattle.sort_recogniser.specs.Inner.Room.{RoomFrom};
ghost use Rattle.sort_recogniser.specs.Inner.Cleared.{RecognisedAs, LineRecognised};
ghost use Rattle.sort_text.specs.Parse as Parse;

use resolved_sort::{ComplexSort, FIRST_CONTAINER, FIRST_PRIMITIVE, Sort};
use sort_lexer::{Reader, Token, Word};
use sort_text::{FUNCTION_STEP, MOST_ARGUMENTS, Unread};

// A line is no sort: where its first token stands that cannot follow.
#[derive(Clone, Copy, Debug, PartialEq, Eq)]
pub struct Stuck(pub usize);

impl From<Stuck> for Unread {
    ghost from_gives = { λ stuck e. e ≡ NotASort stuck.0 };

    fn from(stuck: Stuck) -> Self {
        Unread::NotASort(stuck.0)
    }
}

// The step of a basic sort.
// kept: bytes, since recognise promises zeros behind the steps; sort_reader tells them apart.
#[tactic(auto, unfolding(resolved_sort::specs::Storage::kind_flat))]
fn step_of_sort(sort: Sort) -> u8
    ensures { result ≡ kind_flat (primitive sort) }
{
    FIRST_SORT_STEP + (sort as u8)
}

// The step of a container.
#[tactic(auto, unfolding(resolved_sort::specs::Storage::kind_op))]
fn step_of_op(op: ComplexSort) -> u8
    ensures { result ≡ kind_op op }
{
    FIRST_CONTAINER_STEP + (op as u8)
}

// How far a line is recognised, and the steps of what it said so far, with room for a step for each byte that is left.
// kept: methods copy the reader before they ask it, since a call on a field that holds a reference gets no proof.
#[derive(Drop)]
struct Recogniser<'a> {
    reader: Reader<'a>,
    // kept: a buffer and its count, and no Out: a &mut in a struct within this one is lost where its borrow ends.
    steps: &'a mut [u8],
    count: usize,
    ghost room: { RoomFrom reader.line.now reader.at steps.now count },
}

impl<'a> Recogniser<'a> {
    ghost use Rattle.sort_recogniser.specs.Inner.States.{Read, ReadRest, needed, same_but_place};

    // One more step.
    fn push(&mut self, step: u8)
        requires { needed self.old < length self.old.steps.now }
        ensures same_reference { self.new.steps.ghost_name ≡ self.old.steps.ghost_name }
        ensures pushed { self.new.steps.now ≡ set self.old.steps.now self.old.count step }
        ensures counted { self.new.count ≡ self.old.count + 1 }
        ensures same_reader { self.new.reader ≡ self.old.reader }
    {
        self.steps[self.count] = step;
        self.count += 1;
    }

    // A token that has to stand next.
    fn expect(&mut self, token: Token) -> Result<(), Stuck>
        ensures same_reference { self.new.steps.ghost_name ≡ self.old.steps.ghost_name }
        ensures same_steps { same_but_place self.old self.new }
        ensures met { Met self.old.reader.line.now self.old.reader.at token self.new.reader.at result }
    {
        let reader = self.reader;
        let found = reader.next_token();
        if found.token != token {
            return Err(Stuck(found.at));
        }
        self.reader.at = found.next;
        Ok(())
    }

    // The operands so far are k: `#` and another operand, `->` and the range, or the end of the sort.
    // kept: a call of itself for each `#`, as Parse.rest is defined; k counts operands and is no index.
    #[cycle(bracketed_operand_rest_sort)]
    fn rest(&mut self, k: u8) -> Result<(), Stuck>
        requires { (1 ≤ k) × (k ≤ max_arguments) }
        ensures same_reference { self.new.steps.ghost_name ≡ self.old.steps.ghost_name }
        ensures says { ReadRest self.old k self.new result }
    {
        let reader = self.reader;
        let found = reader.next_token();
        match found.token {
            Token::Hash if k < MOST_ARGUMENTS => {
                self.reader.at = found.next;
                self.operand()?;
                self.rest(k + 1)
            }
            Token::Hash => Err(Stuck(found.at)),
            Token::Arrow => {
                self.reader.at = found.next;
                self.sort()?;
                self.push(FUNCTION_STEP + k);
                Ok(())
            }
            _ if k == 1 => Ok(()),
            _ => Err(Stuck(found.at)),
        }
    }

    // `(` after a container word, the sort in it, and `)`.
    #[cycle(bracketed_operand_rest_sort)]
    fn bracketed(&mut self, op: ComplexSort) -> Result<(), Stuck>
        ensures same_reference { self.new.steps.ghost_name ≡ self.old.steps.ghost_name }
        ensures says { Read self.old self.old.reader.at
            (Parse.bracketed Parse.sort op (skip (drop self.old.reader.at self.old.reader.line.now))
            (next is_letter (drop self.old.reader.at self.old.reader.line.now)))
            self.new result }
    {
        self.expect(Token::Open)?;
        self.sort()?;
        self.expect(Token::Close)?;
        self.push(step_of_op(op));
        Ok(())
    }

    // An operand: a basic sort, or a container over a sort in brackets.
    #[cycle(bracketed_operand_rest_sort)]
    fn operand(&mut self) -> Result<(), Stuck>
        ensures same_reference { self.new.steps.ghost_name ≡ self.old.steps.ghost_name }
        ensures says { Read self.old (self.old.reader.at + 1)
            (Parse.operand Parse.sort (drop self.old.reader.at self.old.reader.line.now)) self.new result }
    {
        let reader = self.reader;
        let found = reader.next_token();
        match found.token {
            Token::Word => match reader.word(found) {
                Some(Word::Basic(sort)) => {
                    self.reader.at = found.next;
                    self.push(step_of_sort(sort));
                    Ok(())
                }
                Some(Word::Container(op)) => {
                    self.reader.at = found.next;
                    self.bracketed(op)
                }
                None => Err(Stuck(found.at)),
            },
            _ => Err(Stuck(found.at)),
        }
    }

    // A sort: operands, and what comes after them.
    #[cycle(bracketed_operand_rest_sort)]
    fn sort(&mut self) -> Result<(), Stuck>
        ensures same_reference { self.new.steps.ghost_name ≡ self.old.steps.ghost_name }
        ensures says { Read self.old (self.old.reader.at + 1)
            (Parse.sort (drop self.old.reader.at self.old.reader.line.now)) self.new result }
    {
        self.operand()?;
        self.rest(1)
    }

    // A line: a sort and nothing but spaces after it.
    fn whole_line(&mut self) -> Result<(), Stuck>
        requires { (self.old.reader.at ≡ 0) × (self.old.count ≡ 0) }
        ensures same_reference { self.new.steps.ghost_name ≡ self.old.steps.ghost_name }
        ensures says { Read self.old 0 (Parse.line self.old.reader.line.now) self.new result }
        ensures to_its_end { OnOk result (self.new.reader.at ≡ length self.old.reader.line.now) }
    {
        self.sort()?;
        self.expect(Token::End)
    }
}

// The steps of a line at the front of the buffer, and how many they are.
fn steps_of(line: &[u8], steps: &mut [u8]) -> Result<usize, Stuck>
    requires { length line.now ≤ length steps.old }
    ensures same_room { length steps.new ≡ length steps.old }
    ensures says { RecognisedAs line.now steps.new result }
{
    let mut recogniser = Recogniser {
        reader: Reader::new(line, 0),
        steps,
        count: 0,
    };
    recogniser.whole_line()?;
    Ok(recogniser.count)
}

// A line recognised: how many steps stand at the front of the buffer, with zeros behind them. Of a line that is no sort
// none stand there.
pub fn recognise(line: &[u8], steps: &mut [u8]) -> Result<usize, Stuck>
    requires { length line.now ≤ length steps.old }
    ensures { LineRecognised line.now (length steps.old) steps.new result }
{
    let found = steps_of(line, steps);
    steps[found.unwrap_or(0)..].fill(0);
    found
}

// Steps of sorts are the kinds of their rows.
const FIRST_SORT_STEP: u8 = FIRST_PRIMITIVE as u8;

const FIRST_CONTAINER_STEP: u8 = FIRST_CONTAINER as u8;
