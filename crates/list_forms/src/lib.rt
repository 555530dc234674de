// What a line of a list gives, by its words and the list so far: rows for tables, words to be set, or what was expected
// instead. Nothing is stored here.
#![tactic(auto)]

ghost use Rattle.std.specs.Prelude.{◌≡◌, ◌≤◌, [], ◌∷◌, length, true, false, IfSome, MatchResult};
ghost use Rattle.list_memory.specs.Memory.{rows_given, memory_words};
ghost use Rattle.list_tokens.specs.declared.Keyword.{Keyword};
ghost use Rattle.list_memory.specs.declared.Form.{Form};
ghost use Rattle.list_forms.specs.declared.Item.{Item};
ghost use Rattle.list_forms.specs.Items.{is_fixed_sort, is_container, is_literal, table_named, slice_named, is_of};
ghost use Rattle.list_forms.specs.Items.{token_at, keyword_word, word_of, word_at, fits_form, all_of};
ghost use Rattle.list_forms.specs.Items.{list_fits, function_fits};
ghost use Rattle.list_forms.specs.Plans.{nothing, rows_plan, row_plan, with_run, put_at, with_put};
ghost use Rattle.list_forms.specs.Plans.{told_plan, saturated, grown};
ghost use Rattle.list_forms.specs.Lines.{is_next, function_plan, parts_row, sort_plan, var_plan, vars_plan};
ghost use Rattle.list_forms.specs.Lines.{bound_plan, bind_plan, node_plan, expr_plan, name_plan};
ghost use Rattle.list_forms.specs.Lines.{default_plan, constraint_row, pair_plan, comprehension_plan};
ghost use Rattle.list_forms.specs.Lines.{disjunction_plan, overload_row, overload_plan, join_plan, sources_plan};
ghost use Rattle.list_forms.specs.Lines.{entries_plan, constraint_plan, pad_plan, told_line, count_plan, lend_plan};
ghost use Rattle.list_forms.specs.Lines.{plan_of, asks_other};

use inference::{CONSTRAINT_WORDS, LitKind, MAX_CONSTRAINTS, NameKind};
use list_memory::{
    COUNTS_AT, COUNTS_TOLD_AT, DEFAULT_AT, Form, LAST_AT, LENT_AT, LENT_TOLD_AT, LIST_BINDS_AT,
    LIST_CONSTRAINTS_AT, LastConstraint, MAX_NAMES, Slice, Table, rows_given,
};
use list_tokens::{Keyword, Token};
use problem_words::ConstraintKind;
use resolved_sort::{ComplexSort, DEF_KIND, FUNCTION_KIND, LAST_KIND, SORT_NUMBERS, Sort};
use unification::{FIRST_NODE, InferSortId, MAX_VARS, SortVar, VARIABLE_KIND, binding_of};
use words::word;

// So many rows of a table: the first of them, and by how much the second word grows from row to row.
#[derive(Clone, Copy, Debug, PartialEq, Eq)]
pub struct Rows {
    pub table: Table,
    pub times: u16,
    pub step: u16,
    pub row: [u16; 5],
}

// The words of the line from `from` to before `to` as rows of a table.
#[derive(Clone, Copy, Debug, PartialEq, Eq)]
pub struct Run {
    pub table: Table,
    pub from: usize,
    pub to: usize,
}

// A word of the list to be set.
#[derive(Clone, Copy, Debug, PartialEq, Eq)]
pub struct Put {
    pub at: usize,
    pub value: u16,
}

// What a line gives. First `free` free variables; then words of the line as rows; then other rows; then a word that is
// set, and one that says that the line told it.
#[derive(Clone, Copy, Debug, PartialEq, Eq)]
pub struct Plan {
    pub free: u16,
    pub run: Option<Run>,
    pub rows: Option<Rows>,
    pub put: Option<Put>,
    pub told: Option<Put>,
}

// A line of a list: the list so far, and the words of the line.
#[derive(Clone, Copy)]
pub struct Line<'a> {
    pub list: &'a [u16],
    pub words: &'a [Token],
}

// Items of a form: a word of the format, or what a word may be. A place is a sort below s1024, a node whose place is a
// word, or one of the fixed six.
#[derive(Clone, Copy, Debug, PartialEq, Eq)]
pub enum Item {
    Word(Keyword),
    AnyWord,
    Number,
    Sort,
    Node,
    Var,
    Expr,
    FixedSort,
    Place,
    Container,
    Literal,
}

// kept: three tests of one shape: `matches!` is all that they share, and the words are what each is about.
fn is_fixed_sort(keyword: Keyword) -> bool
    ensures { result ≡ is_fixed_sort keyword }
{
    matches!(
        keyword,
        Keyword::Unit | Keyword::Bool | Keyword::Pos | Keyword::Nat | Keyword::Int | Keyword::Real
    )
}

fn is_container(keyword: Keyword) -> bool
    ensures { result ≡ is_container keyword }
{
    matches!(
        keyword,
        Keyword::ListOf | Keyword::SetOf | Keyword::FSetOf | Keyword::BagOf | Keyword::FBagOf
    )
}

fn is_literal(keyword: Keyword) -> bool
    ensures { result ≡ is_literal keyword }
{
    matches!(keyword, Keyword::Positive | Keyword::Natural)
}

// The table that a word of `count` names, and the slice that a word of `lend` names.
// kept: functions and no TryFrom, since neither the word nor what it names is a type of this crate.
fn table_of(token: Token) -> Option<Table>
    ensures { result ≡ table_named token }
{
    match token {
        Token::Keyword(Keyword::Sorts) => Some(Table::Sorts),
        Token::Keyword(Keyword::Entries) => Some(Table::Entries),
        Token::Keyword(Keyword::Nodes) => Some(Table::Nodes),
        Token::Keyword(Keyword::NodeEntries) => Some(Table::NodeEntries),
        Token::Keyword(Keyword::Vars) => Some(Table::Vars),
        Token::Keyword(Keyword::Exprs) => Some(Table::Exprs),
        Token::Keyword(Keyword::Names) => Some(Table::Names),
        Token::Keyword(Keyword::Constraints) => Some(Table::Constraints),
        Token::Keyword(Keyword::Overloads) => Some(Table::Overloads),
        Token::Keyword(Keyword::Sources) => Some(Table::Sources),
        _ => None,
    }
}

fn slice_of(token: Token) -> Option<Slice>
    ensures { result ≡ slice_named token }
{
    match token {
        Token::Keyword(Keyword::Sorts) => Some(Slice::Sorts),
        Token::Keyword(Keyword::Nodes) => Some(Slice::Nodes),
        Token::Keyword(Keyword::Bindings) => Some(Slice::Bindings),
        Token::Keyword(Keyword::Exprs) => Some(Slice::Exprs),
        Token::Keyword(Keyword::Names) => Some(Slice::Names),
        Token::Keyword(Keyword::Constraints) => Some(Slice::Constraints),
        Token::Keyword(Keyword::Overloads) => Some(Slice::Overloads),
        Token::Keyword(Keyword::Sources) => Some(Slice::Sources),
        Token::Keyword(Keyword::Scratch) => Some(Slice::Scratch),
        Token::Keyword(Keyword::Index) => Some(Slice::Index),
        Token::Keyword(Keyword::OutTyping) => Some(Slice::Typing),
        Token::Keyword(Keyword::OutMeasure) => Some(Slice::Measure),
        Token::Keyword(Keyword::OutChoices) => Some(Slice::Choices),
        _ => None,
    }
}

impl Item {
    // Whether a word is of the item.
    #[tactic(auto, using(list_tokens::proofs::Places::same_words), unfolding(crate::specs::Items::is_of))]
    fn is(self, token: Token) -> bool
        ensures { result ≡ is_of self token }
    {
        match (self, token) {
            (Item::Word(expected), Token::Keyword(keyword)) => keyword == expected,
            (Item::AnyWord, Token::Keyword(_)) => true,
            (Item::Number, Token::Number(_)) => true,
            (Item::Sort, Token::Sort(_)) => true,
            (Item::Node, Token::Node(_)) => true,
            (Item::Var, Token::Var(_)) => true,
            (Item::Expr, Token::Expr(_)) => true,
            (Item::Place, Token::Sort(n)) => n < SORT_NUMBERS,
            (Item::Place, Token::Node(n)) => n < NODE_PLACES,
            (Item::Sort, Token::Keyword(keyword)) => is_fixed_sort(keyword),
            (Item::Place, Token::Keyword(keyword)) => is_fixed_sort(keyword),
            (Item::FixedSort, Token::Keyword(keyword)) => is_fixed_sort(keyword),
            (Item::Container, Token::Keyword(keyword)) => is_container(keyword),
            (Item::Literal, Token::Keyword(keyword)) => is_literal(keyword),
            _ => false,
        }
    }
}

// Word i of a line.
pub fn token_at(t: &[Token], i: usize) -> Token
    ensures { result ≡ token_at t.now i }
{
    t.get(i).copied().unwrap_or(Token::Other)
}

// What a word of the format stands for in memory: a fixed sort's number, the kind of a container or of a literal.
#[tactic(auto, unfolding(resolved_sort::specs::Storage::kind_op, resolved_sort::specs::Storage::kind_flat))]
fn keyword_word(keyword: Keyword) -> u16
    ensures { result ≡ keyword_word keyword }
{
    match keyword {
        Keyword::Bool => Sort::Bool.into(),
        Keyword::Pos => Sort::Pos.into(),
        Keyword::Nat => Sort::Nat.into(),
        Keyword::Int => Sort::Int.into(),
        Keyword::Real => Sort::Real.into(),
        Keyword::ListOf => ComplexSort::List.into(),
        Keyword::SetOf => ComplexSort::Set.into(),
        Keyword::FSetOf => ComplexSort::FSet.into(),
        Keyword::BagOf => ComplexSort::Bag.into(),
        Keyword::FBagOf => ComplexSort::FBag.into(),
        Keyword::Natural => LitKind::Natural as u16,
        _ => 0,
    }
}

// What a word stands for in memory.
#[tactic(auto, unfolding(crate::specs::Items::word_of))]
fn word_of(token: Token) -> u16
    ensures { result ≡ word_of token }
{
    match token {
        Token::Keyword(keyword) => keyword_word(keyword),
        Token::Node(n) if n < NODE_PLACES => n + FIRST_NODE,
        Token::Number(n) | Token::Sort(n) | Token::Node(n) | Token::Var(n) | Token::Expr(n) => n,
        Token::Other => 0,
    }
}

#[tactic(auto, unfolding(crate::specs::Items::word_at))]
pub fn word_at(t: &[Token], i: usize) -> u16
    ensures { result ≡ word_at t.now i }
{
    word_of(token_at(t, i))
}

// The words of a line are of the items, one for one, and no more.
#[tactic(auto, unfolding(crate::specs::Items::fits_form))]
pub fn fits(t: &[Token], form: &[Item]) -> bool
    ensures { result ≡ fits_form t.now form.now }
{
    t.len() == form.len() && form.iter().zip(t).all(|(item, token)| item.is(*token))
}

// Words that are all of an item.
fn all_of(item: Item, words: &[Token]) -> bool
    ensures { result ≡ all_of item words.now }
{
    words.iter().all(|token| item.is(*token))
}

// A line that gives nothing.
const NOTHING: Plan = Plan {
    free: 0,
    run: None,
    rows: None,
    put: None,
    told: None,
};

// One row of a table.
fn row_plan(table: Table, row: [u16; 5]) -> Plan
    ensures { result ≡ row_plan table row }
{
    rows_plan(table, 1, 0, row)
}

// So many rows of a table, whose second word grows by a step.
fn rows_plan(table: Table, times: u16, step: u16, row: [u16; 5]) -> Plan
    ensures { result ≡ rows_plan table times step row }
{
    Plan {
        rows: Some(Rows {
            table,
            times,
            step,
            row,
        }),
        ..NOTHING
    }
}

// A word told, and that it is.
fn told_plan(at: usize, value: u16, told_at: usize) -> Plan
    ensures { result ≡ told_plan at value told_at }
{
    Plan {
        put: Some(Put { at, value }),
        told: Some(Put {
            at: told_at,
            value: 1,
        }),
        ..NOTHING
    }
}

// A count as a word: it stops where counts of rows do.
fn saturated(n: usize) -> u16
    ensures { result ≡ saturated n }
{
    u16::try_from(n).unwrap_or(u16::MAX)
}

// A word that is set, and nothing else.
fn put_plan(at: usize, value: u16) -> Plan
    ensures { result ≡ with_put nothing (put_at at value) }
{
    Plan {
        put: Some(Put { at, value }),
        ..NOTHING
    }
}

// A constraint row, and what kind of line it is of.
fn constraint_row(row: [u16; 5], last: LastConstraint) -> Plan
    ensures { result ≡ constraint_row row last }
{
    Plan {
        put: Some(Put {
            at: LAST_AT,
            value: last.into(),
        }),
        ..row_plan(Table::Constraints, row)
    }
}

// What was expected, where it does not hold.
// kept: beside `check` of solve_checks: its contract says which of a list of checks fails first, this one that `holds`
// is true after `?`, which each line's plan needs.
fn expect(holds: bool, form: Form) -> Result<(), Form>
    ensures { MatchResult result (λ _. holds ≡ true) (λ f. (holds ≡ false) × (f ≡ form)) }
{
    if holds { Ok(()) } else { Err(form) }
}

impl<'a> Line<'a> {
    fn token_at(&self, i: usize) -> Token
        ensures { result ≡ token_at self.now.words.now i }
    {
        token_at(self.words, i)
    }

    fn word_at(&self, i: usize) -> u16
        ensures { result ≡ word_at self.now.words.now i }
    {
        word_at(self.words, i)
    }

    fn fits(&self, form: &[Item]) -> bool
        ensures { result ≡ fits_form self.now.words.now form.now }
    {
        fits(self.words, form)
    }

    // At least one word after the first, all of an item.
    #[tactic(auto, unfolding(crate::specs::Items::list_fits))]
    fn list_fits(&self, item: Item) -> bool
        ensures { result ≡ list_fits self.now.words.now item }
    {
        1 < self.words.len() && all_of(item, &self.words[1..])
    }

    // `fn X ... -> X` after a keyword and a name.
    #[tactic(auto, unfolding(crate::specs::Items::function_fits))]
    fn function_fits(&self, item: Item) -> bool
        ensures { result ≡ function_fits self.now.words.now item }
    {
        match self.words {
            [_, _, function, parts @ .., arrow, range] => {
                Item::Word(Keyword::Fn).is(*function)
                    && Item::Word(Keyword::Arrow).is(*arrow)
                    && item.is(*range)
                    && all_of(item, parts)
            }
            _ => false,
        }
    }

    // Word i of the last constraint's row grows by n, where its line is of a kind and the row is kept.
    #[tactic(auto, unfolding(crate::specs::Plans::grown))]
    fn grown(&self, last: LastConstraint, i: usize, n: u16) -> Option<Put>
        requires { i ≤ 4 }
        ensures { result ≡ grown self.now.list.now last i n }
    {
        if word(self.list, LAST_AT) != u16::from(last) {
            return None;
        }
        let rows = rows_given(self.list, Table::Constraints) as usize;
        if rows == 0 || MAX_CONSTRAINTS < rows {
            return None;
        }
        let at = BEFORE_CONSTRAINTS + CONSTRAINT_WORDS * rows + i;
        let value = word(self.list, at).saturating_add(n);
        Some(Put { at, value })
    }

    // A word is the next name of a table.
    #[tactic(auto, unfolding(crate::specs::Lines::is_next))]
    fn is_next(&self, token: Token, table: Table) -> bool
        ensures { result ≡ is_next self.now.list.now token table }
    {
        match (token, table) {
            (Token::Sort(n), Table::Sorts) => n == rows_given(self.list, Table::Sorts),
            (Token::Node(n), Table::Nodes) => n == rows_given(self.list, Table::Nodes),
            (Token::Var(n), Table::Vars) => n == rows_given(self.list, Table::Vars),
            (Token::Expr(n), Table::Exprs) => n == rows_given(self.list, Table::Exprs),
            _ => false,
        }
    }

    // A function row of a table, with its arguments in another.
    #[tactic(auto, unfolding(crate::specs::Lines::function_plan))]
    fn function_plan(&self, table: Table, entries: Table) -> Plan
        ensures { result ≡ function_plan self.now.list.now self.now.words.now table entries }
    {
        let range = self.word_at(self.words.len().saturating_sub(1));
        let start = rows_given(self.list, entries);
        let arguments = saturated(self.words.len().saturating_sub(5));
        Plan {
            run: Some(Run {
                table: entries,
                from: 3,
                to: self.words.len().saturating_sub(2),
            }),
            ..row_plan(table, [FUNCTION_KIND, range, start, arguments, 0])
        }
    }

    // The lines that sorts and nodes share: a container, a function, a raw row.
    #[tactic(auto, unfolding(crate::specs::Lines::parts_row))]
    fn parts_row(
        &self,
        keyword: Keyword,
        name: Item,
        part: Item,
        table: Table,
        entries: Table,
    ) -> Option<Plan>
        ensures { result ≡ parts_row self.now.list.now self.now.words.now keyword name part table entries }
    {
        if self.fits(&[Item::Word(keyword), name, Item::Container, part]) {
            return Some(row_plan(table, [self.word_at(2), self.word_at(3), 0, 0, 0]));
        }
        if self.function_fits(part) {
            return Some(self.function_plan(table, entries));
        }
        if self.fits(&[
            Item::Word(keyword),
            name,
            Item::Word(Keyword::Raw),
            Item::Number,
            Item::Number,
            Item::Number,
            Item::Number,
        ]) {
            return Some(row_plan(
                table,
                [
                    self.word_at(3),
                    self.word_at(4),
                    self.word_at(5),
                    self.word_at(6),
                    0,
                ],
            ));
        }
        None
    }

    // `sort sK ..`
    #[tactic(auto, unfolding(crate::specs::Lines::sort_plan))]
    fn sort_plan(&self) -> Result<Plan, Form>
        ensures { result ≡ sort_plan self.now.list.now self.now.words.now }
    {
        expect(self.is_next(self.token_at(1), Table::Sorts), Form::Next)?;
        if let Some(plan) = self.parts_row(
            Keyword::Sort,
            Item::Sort,
            Item::Sort,
            Table::Sorts,
            Table::Entries,
        ) {
            return Ok(plan);
        }
        if self.fits(&[
            Item::Word(Keyword::Sort),
            Item::Sort,
            Item::Word(Keyword::Def),
            Item::Number,
        ]) {
            return Ok(row_plan(Table::Sorts, [DEF_KIND, self.word_at(3), 0, 0, 0]));
        }
        if self.fits(&[
            Item::Word(Keyword::Sort),
            Item::Sort,
            Item::Word(Keyword::TypeVar),
            Item::Number,
        ]) {
            return Ok(row_plan(Table::Sorts, [LAST_KIND, self.word_at(3), 0, 0, 0]));
        }
        if self.fits(&[Item::Word(Keyword::Sort), Item::Sort, Item::FixedSort]) {
            return Ok(row_plan(Table::Sorts, [self.word_at(2), 0, 0, 0, 0]));
        }
        Err(Form::Sort)
    }

    // `var vK nJ`
    #[tactic(auto, unfolding(crate::specs::Lines::var_plan))]
    fn var_plan(&self) -> Result<Plan, Form>
        ensures { result ≡ var_plan self.now.list.now self.now.words.now }
    {
        expect(
            self.fits(&[Item::Word(Keyword::Var), Item::Var, Item::Node]),
            Form::Var,
        )?;
        expect(self.is_next(self.token_at(1), Table::Vars), Form::Next)?;
        expect(self.is_next(self.token_at(2), Table::Nodes), Form::Next)?;
        Ok(Plan {
            free: 1,
            ..row_plan(Table::Nodes, [VARIABLE_KIND, self.word_at(1), 0, 0, 0])
        })
    }

    // `vars N`
    #[tactic(auto, unfolding(crate::specs::Lines::vars_plan))]
    fn vars_plan(&self) -> Result<Plan, Form>
        ensures { result ≡ vars_plan self.now.words.now }
    {
        expect(
            self.fits(&[Item::Word(Keyword::Vars), Item::Number]),
            Form::Vars,
        )?;
        Ok(Plan {
            free: self.word_at(1),
            ..NOTHING
        })
    }

    // The binding of a variable that has none yet; one past the ceiling has no word.
    #[tactic(auto, unfolding(crate::specs::Lines::bound_plan))]
    fn bound_plan(&self, var: SortVar, place: InferSortId) -> Result<Plan, Form>
        ensures { result ≡ bound_plan self.now.list.now var.0 place.0 }
    {
        if rows_given(self.list, Table::Vars) <= var.0 {
            return Err(Form::Unbound);
        }
        if VARS <= var.0 {
            return Ok(NOTHING);
        }
        let at = LIST_BINDS_AT + (var.0 as usize);
        if binding_of(word(self.list, at)).is_some() {
            return Err(Form::Unbound);
        }
        Ok(put_plan(at, place.0))
    }

    // `bind vN P`
    #[tactic(auto, unfolding(crate::specs::Lines::bind_plan))]
    fn bind_plan(&self) -> Result<Plan, Form>
        ensures { result ≡ bind_plan self.now.list.now self.now.words.now }
    {
        expect(
            self.fits(&[Item::Word(Keyword::Bind), Item::Var, Item::Place]),
            Form::Bind,
        )?;
        self.bound_plan(SortVar(self.word_at(1)), InferSortId(self.word_at(2)))
    }

    // `node nK ..`
    // kept: of the shape of sort_plan: what the two share is parts_row, and the rows that only one of them has differ.
    #[tactic(auto, unfolding(crate::specs::Lines::node_plan))]
    fn node_plan(&self) -> Result<Plan, Form>
        ensures { result ≡ node_plan self.now.list.now self.now.words.now }
    {
        expect(self.is_next(self.token_at(1), Table::Nodes), Form::Next)?;
        if let Some(plan) = self.parts_row(
            Keyword::Node,
            Item::Node,
            Item::Place,
            Table::Nodes,
            Table::NodeEntries,
        ) {
            return Ok(plan);
        }
        if self.fits(&[
            Item::Word(Keyword::Node),
            Item::Node,
            Item::Word(Keyword::Var),
            Item::Var,
        ]) {
            return Ok(row_plan(Table::Nodes, [VARIABLE_KIND, self.word_at(3), 0, 0, 0]));
        }
        Err(Form::Node)
    }

    // `expr eK P`
    #[tactic(auto, unfolding(crate::specs::Lines::expr_plan))]
    fn expr_plan(&self) -> Result<Plan, Form>
        ensures { result ≡ expr_plan self.now.list.now self.now.words.now }
    {
        expect(self.is_next(self.token_at(1), Table::Exprs), Form::Next)?;
        expect(
            self.fits(&[Item::Word(Keyword::Expr), Item::Expr, Item::Place]),
            Form::Expr,
        )?;
        Ok(row_plan(Table::Exprs, [self.word_at(2), 0, 0, 0, 0]))
    }

    // `name eN ..`
    #[tactic(auto, unfolding(crate::specs::Lines::name_plan))]
    fn name_plan(&self) -> Result<Plan, Form>
        ensures { result ≡ name_plan self.now.list.now self.now.words.now }
    {
        if NAMES <= rows_given(self.list, Table::Names) {
            return Err(Form::Names);
        }
        if self.fits(&[
            Item::Word(Keyword::Name),
            Item::Expr,
            Item::Word(Keyword::Variable),
        ]) {
            return Ok(row_plan(
                Table::Names,
                [self.word_at(1), NameKind::Variable as u16, 0, 0, 0],
            ));
        }
        if self.fits(&[
            Item::Word(Keyword::Name),
            Item::Expr,
            Item::Word(Keyword::Builtin),
        ]) {
            return Ok(row_plan(
                Table::Names,
                [self.word_at(1), NameKind::Builtin as u16, 0, 0, 0],
            ));
        }
        if self.fits(&[
            Item::Word(Keyword::Name),
            Item::Expr,
            Item::Word(Keyword::Op),
            Item::Sort,
        ]) {
            return Ok(row_plan(
                Table::Names,
                [self.word_at(1), NameKind::Op as u16, self.word_at(3), 0, 0],
            ));
        }
        if self.fits(&[
            Item::Word(Keyword::Name),
            Item::Expr,
            Item::Word(Keyword::Raw),
            Item::Number,
            Item::Number,
        ]) {
            return Ok(row_plan(
                Table::Names,
                [self.word_at(1), self.word_at(3), self.word_at(4), 0, 0],
            ));
        }
        Err(Form::Name)
    }

    // `default S`
    #[tactic(auto, unfolding(crate::specs::Lines::default_plan))]
    fn default_plan(&self) -> Result<Plan, Form>
        ensures { result ≡ default_plan self.now.words.now }
    {
        expect(
            self.fits(&[Item::Word(Keyword::Default), Item::Sort]),
            Form::Default,
        )?;
        Ok(put_plan(DEFAULT_AT, self.word_at(1)))
    }

    // `sub P P`, `lit P positive`, `lit P natural`: a constraint of a place and another item.
    #[tactic(auto, unfolding(crate::specs::Lines::pair_plan))]
    fn pair_plan(
        &self,
        keyword: Keyword,
        item: Item,
        kind: ConstraintKind,
        form: Form,
    ) -> Result<Plan, Form>
        ensures { result ≡ pair_plan self.now.words.now keyword item kind form }
    {
        expect(self.fits(&[Item::Word(keyword), Item::Place, item]), form)?;
        let row = [kind as u16, self.word_at(1), self.word_at(2), 0, 0];
        Ok(constraint_row(row, LastConstraint::Other))
    }

    // `comprehension P P S`
    #[tactic(auto, unfolding(crate::specs::Lines::comprehension_plan))]
    fn comprehension_plan(&self) -> Result<Plan, Form>
        ensures { result ≡ comprehension_plan self.now.words.now }
    {
        expect(
            self.fits(&[
                Item::Word(Keyword::Comprehension),
                Item::Place,
                Item::Place,
                Item::Sort,
            ]),
            Form::Comprehension,
        )?;
        let kind = ConstraintKind::Comprehension as u16;
        let row = [kind, self.word_at(1), self.word_at(2), self.word_at(3), 0];
        Ok(constraint_row(row, LastConstraint::Other))
    }

    // `disjunction eN P`
    #[tactic(auto, unfolding(crate::specs::Lines::disjunction_plan))]
    fn disjunction_plan(&self) -> Result<Plan, Form>
        ensures { result ≡ disjunction_plan self.now.list.now self.now.words.now }
    {
        expect(
            self.fits(&[Item::Word(Keyword::Disjunction), Item::Expr, Item::Place]),
            Form::Disjunction,
        )?;
        let kind = ConstraintKind::Disjunction as u16;
        let first = rows_given(self.list, Table::Overloads);
        let row = [kind, self.word_at(1), self.word_at(2), first, 0];
        Ok(constraint_row(row, LastConstraint::Disjunction))
    }

    // An overload; its disjunction has one more.
    fn overload_row(&self, row: [u16; 5]) -> Plan
        ensures { result ≡ overload_row self.now.list.now row }
    {
        Plan {
            put: self.grown(LastConstraint::Disjunction, 4, 1),
            ..row_plan(Table::Overloads, row)
        }
    }

    // `overload ..`
    #[tactic(auto, unfolding(crate::specs::Lines::overload_plan))]
    fn overload_plan(&self) -> Result<Plan, Form>
        ensures { result ≡ overload_plan self.now.list.now self.now.words.now }
    {
        if self.fits(&[
            Item::Word(Keyword::Overload),
            Item::Word(Keyword::Variable),
            Item::Place,
        ]) {
            return Ok(self.overload_row([NameKind::Variable as u16, 0, self.word_at(2), 0, 0]));
        }
        if self.fits(&[
            Item::Word(Keyword::Overload),
            Item::Word(Keyword::Builtin),
            Item::Place,
        ]) {
            return Ok(self.overload_row([NameKind::Builtin as u16, 0, self.word_at(2), 0, 0]));
        }
        if self.fits(&[
            Item::Word(Keyword::Overload),
            Item::Word(Keyword::Op),
            Item::Sort,
            Item::Place,
        ]) {
            return Ok(self.overload_row([
                NameKind::Op as u16,
                self.word_at(2),
                self.word_at(3),
                0,
                0,
            ]));
        }
        if self.fits(&[
            Item::Word(Keyword::Overload),
            Item::Word(Keyword::Raw),
            Item::Number,
            Item::Number,
            Item::Number,
        ]) {
            return Ok(self.overload_row([self.word_at(2), self.word_at(3), self.word_at(4), 0, 0]));
        }
        Err(Form::Overload)
    }

    // `join P P ...`
    #[tactic(auto, unfolding(crate::specs::Lines::join_plan))]
    fn join_plan(&self) -> Result<Plan, Form>
        ensures { result ≡ join_plan self.now.list.now self.now.words.now }
    {
        expect(self.list_fits(Item::Place), Form::Join)?;
        let first = rows_given(self.list, Table::Sources);
        let sources = saturated(self.words.len().saturating_sub(2));
        let row = [
            ConstraintKind::Join as u16,
            self.word_at(1),
            first,
            sources,
            0,
        ];
        Ok(Plan {
            run: Some(Run {
                table: Table::Sources,
                from: 2,
                to: self.words.len(),
            }),
            ..constraint_row(row, LastConstraint::Join)
        })
    }

    // The words of a line after its first, as rows of a table.
    fn run_plan(&self, table: Table) -> Plan
        ensures { result ≡ with_run nothing table 1 (length self.now.words.now) }
    {
        Plan {
            run: Some(Run {
                table,
                from: 1,
                to: self.words.len(),
            }),
            ..NOTHING
        }
    }

    // `sources P ...`
    #[tactic(auto, unfolding(crate::specs::Lines::sources_plan))]
    fn sources_plan(&self) -> Result<Plan, Form>
        ensures { result ≡ sources_plan self.now.list.now self.now.words.now }
    {
        expect(self.list_fits(Item::Place), Form::Sources)?;
        let more = saturated(self.words.len().saturating_sub(1));
        Ok(Plan {
            put: self.grown(LastConstraint::Join, 3, more),
            ..self.run_plan(Table::Sources)
        })
    }

    // `entries N ...`, `node-entries N ...`
    #[tactic(auto, unfolding(crate::specs::Lines::entries_plan))]
    fn entries_plan(&self, table: Table, form: Form) -> Result<Plan, Form>
        ensures { result ≡ entries_plan self.now.words.now table form }
    {
        expect(self.list_fits(Item::Number), form)?;
        Ok(self.run_plan(table))
    }

    // `constraint KIND A B C D`
    #[tactic(auto, unfolding(crate::specs::Lines::constraint_plan))]
    fn constraint_plan(&self) -> Result<Plan, Form>
        ensures { result ≡ constraint_plan self.now.words.now }
    {
        expect(
            self.fits(&[
                Item::Word(Keyword::Constraint),
                Item::Number,
                Item::Number,
                Item::Number,
                Item::Number,
                Item::Number,
            ]),
            Form::Constraint,
        )?;
        let row = [
            self.word_at(1),
            self.word_at(2),
            self.word_at(3),
            self.word_at(4),
            self.word_at(5),
        ];
        Ok(constraint_row(row, LastConstraint::Other))
    }

    // `pad WHAT N`
    #[tactic(auto, unfolding(crate::specs::Lines::pad_plan))]
    fn pad_plan(&self) -> Result<Plan, Form>
        ensures { result ≡ pad_plan self.now.list.now self.now.words.now }
    {
        if self.fits(&[
            Item::Word(Keyword::Pad),
            Item::Word(Keyword::Sorts),
            Item::Number,
        ]) {
            let row = [DEF_KIND, rows_given(self.list, Table::Sorts), 0, 0, 0];
            return Ok(rows_plan(Table::Sorts, self.word_at(2), 1, row));
        }
        if self.fits(&[
            Item::Word(Keyword::Pad),
            Item::Word(Keyword::Nodes),
            Item::Number,
        ]) {
            let row = [
                keyword_word(Keyword::ListOf),
                keyword_word(Keyword::Bool),
                0,
                0,
                0,
            ];
            return Ok(rows_plan(Table::Nodes, self.word_at(2), 0, row));
        }
        if self.fits(&[
            Item::Word(Keyword::Pad),
            Item::Word(Keyword::Entries),
            Item::Number,
        ]) {
            return Ok(rows_plan(Table::Entries, self.word_at(2), 0, [0; 5]));
        }
        if self.fits(&[
            Item::Word(Keyword::Pad),
            Item::Word(Keyword::NodeEntries),
            Item::Number,
        ]) {
            return Ok(rows_plan(Table::NodeEntries, self.word_at(2), 0, [0; 5]));
        }
        Err(Form::Pad)
    }

    // `count WHAT N`, `lend WHAT N`: a word that the line tells, behind `at` by the number of what it names.
    #[tactic(auto, unfolding(crate::specs::Lines::told_line))]
    fn told_line(
        &self,
        keyword: Keyword,
        number: Option<usize>,
        at: usize,
        told_at: usize,
        form: Form,
    ) -> Result<Plan, Form>
        requires { IfSome number (λ k. k ≤ 12) × (at ≤ memory_words) × (told_at ≤ memory_words) }
        ensures { result ≡ told_line self.now.words.now keyword number at told_at form }
    {
        expect(
            self.fits(&[Item::Word(keyword), Item::AnyWord, Item::Number]),
            form,
        )?;
        let k = number.ok_or(form)?;
        Ok(told_plan(at + k, self.word_at(2), told_at + k))
    }

    // `count WHAT N`
    // kept: of the shape of lend_plan: what the two share is told_line, and a table is no slice.
    fn count_plan(&self) -> Result<Plan, Form>
        ensures { result ≡ count_plan self.now.words.now }
    {
        let table = table_of(self.token_at(1)).map(Table::number);
        self.told_line(
            Keyword::Count,
            table,
            COUNTS_AT,
            COUNTS_TOLD_AT,
            Form::Count,
        )
    }

    // `lend WHAT N`
    fn lend_plan(&self) -> Result<Plan, Form>
        ensures { result ≡ lend_plan self.now.words.now }
    {
        let slice = slice_of(self.token_at(1)).map(Slice::number);
        self.told_line(Keyword::Lend, slice, LENT_AT, LENT_TOLD_AT, Form::Lend)
    }

    // What a line of a list gives, by its first word; `bare` gives no rows and is not among these.
    #[tactic(auto, unfolding(crate::specs::Lines::plan_of))]
    pub fn plan(&self) -> Result<Plan, Form>
        ensures { result ≡ plan_of self.now.list.now self.now.words.now }
    {
        match self.token_at(0) {
            Token::Keyword(Keyword::Sort) => self.sort_plan(),
            Token::Keyword(Keyword::Var) => self.var_plan(),
            Token::Keyword(Keyword::Vars) => self.vars_plan(),
            Token::Keyword(Keyword::Bind) => self.bind_plan(),
            Token::Keyword(Keyword::Node) => self.node_plan(),
            Token::Keyword(Keyword::Expr) => self.expr_plan(),
            Token::Keyword(Keyword::Name) => self.name_plan(),
            Token::Keyword(Keyword::Default) => self.default_plan(),
            Token::Keyword(Keyword::Sub) => {
                self.pair_plan(Keyword::Sub, Item::Place, ConstraintKind::Sub, Form::Sub)
            }
            Token::Keyword(Keyword::Lit) => {
                self.pair_plan(Keyword::Lit, Item::Literal, ConstraintKind::Lit, Form::Lit)
            }
            Token::Keyword(Keyword::Comprehension) => self.comprehension_plan(),
            Token::Keyword(Keyword::Disjunction) => self.disjunction_plan(),
            Token::Keyword(Keyword::Overload) => self.overload_plan(),
            Token::Keyword(Keyword::Join) => self.join_plan(),
            Token::Keyword(Keyword::Sources) => self.sources_plan(),
            Token::Keyword(Keyword::Entries) => self.entries_plan(Table::Entries, Form::Entries),
            Token::Keyword(Keyword::NodeEntries) => {
                self.entries_plan(Table::NodeEntries, Form::NodeEntries)
            }
            Token::Keyword(Keyword::Constraint) => self.constraint_plan(),
            Token::Keyword(Keyword::Pad) => self.pad_plan(),
            Token::Keyword(Keyword::Count) => self.count_plan(),
            Token::Keyword(Keyword::Lend) => self.lend_plan(),
            Token::Keyword(Keyword::Ceilings) => Err(Form::Ceilings),
            _ => Err(Form::Keyword),
        }
    }
}

// `? WHAT X X`
fn asks(t: &[Token], what: Keyword, item: Item) -> bool
    ensures { result ≡ fits_form t.now (Item.Word Keyword.Ask ∷ Item.Word what ∷ item ∷ item ∷ []) }
{
    fits(t, &[Item::Word(Keyword::Ask), Item::Word(what), item, item])
}

// Whether `?` has one of the questions other than `solve`.
#[tactic(auto, unfolding(crate::specs::Lines::asks_other))]
pub fn asks_other(t: &[Token]) -> bool
    ensures { result ≡ asks_other t.now }
{
    asks(t, Keyword::Unify, Item::Place)
        || asks(t, Keyword::PartialCmp, Item::Sort)
        || asks(t, Keyword::Join, Item::Sort)
        || asks(t, Keyword::Meet, Item::Sort)
        || asks(t, Keyword::WideningDistance, Item::Sort)
        || asks(t, Keyword::IsMaterializable, Item::Sort)
}

// Nodes below this one have a place that is a word.
const NODE_PLACES: u16 = u16::MAX - FIRST_NODE + 1;

// The last row of so many constraints begins so many rows behind this word.
const BEFORE_CONSTRAINTS: usize = LIST_CONSTRAINTS_AT - CONSTRAINT_WORDS;

// Ceilings as words.
const VARS: u16 = MAX_VARS as u16;

const NAMES: u16 = MAX_NAMES as u16;
