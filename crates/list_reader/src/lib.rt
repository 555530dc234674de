// A line of the text format, taken into a list.
#![tactic(auto)]

ghost use Rattle.std.specs.Prelude.{◌≡◌, ◌≤◌, ◌-◌, Some, set};
ghost use Rattle.list_memory.specs.Memory.{rows_given, stage_at, taken};
ghost use Rattle.list_memory.specs.Layouts.{stage_number, list_row_at};
ghost use Rattle.list_tokens.specs.Tokens.{line_start};
ghost use Rattle.list_reader.specs.Inner.Taking.{most_place, bad_marked};
ghost use Rattle.list_reader.specs.Taking.{one_more_word, row_kept, appended, rows_taken};
ghost use Rattle.list_reader.specs.Taking.{append_run, run_taken, put_taken, carried, begun};
ghost use Rattle.list_reader.specs.Taking.{bare_taken, question_taken, stage_is, words_taken, other_taken};
ghost use Rattle.list_reader.specs.Taking.{answer_taken, list_taken, by_start, line_taken};

use list_forms::{Item, Line, Plan, Put, Rows, Run, asks_other, fits, token_at, word_at};
use list_memory::{
    DEFAULT_AT, Form, Heard, LIST_SORTS_AT, LIST_WORDS, ROWS_AT, STAGE_AT, Stage, Table, rows_given,
};
use list_tokens::{Keyword, MOST_WORDS, Start, Token, printable, start_of, tokens_of};
use resolved_sort::{FIXED_SORTS, ROW_WORDS, Sort};
use sort_interner::put_fixed_six;
use sort_text::MAX_LINE;
use unification::FREE_WORD;
use words::{clear, copy, put};

// A list as it is being read, in its one memory: list_memory says which word is what.
#[derive(Drop)]
pub struct List {
    pub words: [u16; LIST_WORDS],
}

// The first word of row n of a table.
#[tactic(auto, using(crate::proofs::Rows::row_within))]
fn row_at(table: Table, n: u16) -> usize
    ensures at { result ≡ list_row_at table n }
    ensures within { result ≤ most_place }
{
    let layout = table.layout();
    (layout.start as usize) + (layout.width as usize) * (n as usize)
}

impl List {
    // Whether the list is read so far.
    pub fn stage_is(&self, stage: Stage) -> bool
        ensures { result ≡ stage_is self.now.words stage }
    {
        self.words[STAGE_AT] == u16::from(stage)
    }

    fn set_stage(&mut self, stage: Stage)
        ensures { self.new.words ≡ set self.old.words stage_at (stage_number stage) }
    {
        self.words[STAGE_AT] = stage.into();
    }

    // A row put where the next row of a table is, below its ceiling.
    #[tactic(auto, using(crate::proofs::Rows::row_in_list), unfolding(crate::specs::Taking::row_kept))]
    fn keep(&mut self, table: Table, row: [u16; 5])
        ensures { self.new.words ≡ row_kept self.old.words table row }
    {
        let layout = table.layout();
        let n = rows_given(&self.words, table);
        if n < layout.ceiling {
            copy(
                &mut self.words,
                row_at(table, n),
                &row,
                0,
                layout.width as usize,
            );
        }
    }

    // One more row of a table: kept below the ceiling, counted in any case.
    #[tactic(auto, unfolding(crate::specs::Taking::appended, crate::specs::Taking::one_more_word))]
    fn append(&mut self, table: Table, row: [u16; 5])
        ensures { self.new.words ≡ appended self.old.words table row }
    {
        let n = rows_given(&self.words, table);
        self.keep(table, row);
        self.words[ROWS_AT + table.number()] = n.saturating_add(1);
    }

    // More rows of a table.
    fn append_rows(&mut self, rows: Rows)
        ensures { self.new.words ≡ rows_taken self.old.words (Some rows) }
    {
        let mut row = rows.row;
        for _i in 0..rows.times {
            self.append(rows.table, row);
            row[1] = row[1].saturating_add(rows.step);
        }
    }

    fn take_rows(&mut self, rows: Option<Rows>)
        ensures { self.new.words ≡ rows_taken self.old.words rows }
    {
        if let Some(rows) = rows {
            self.append_rows(rows);
        }
    }

    // Words of the line, each a row of a table.
    fn append_run(&mut self, t: &[Token], run: Run)
        ensures { self.new.words ≡ append_run (run.to - run.from) self.old.words run.table t.now run.from }
    {
        for i in run.from..run.to {
            self.append(run.table, [word_at(t, i), 0, 0, 0, 0]);
        }
    }

    fn take_run(&mut self, t: &[Token], run: Option<Run>)
        ensures { self.new.words ≡ run_taken self.old.words t.now run }
    {
        if let Some(run) = run {
            self.append_run(t, run);
        }
    }

    fn take_put(&mut self, word: Option<Put>)
        ensures { self.new.words ≡ put_taken self.old.words word }
    {
        if let Some(word) = word {
            put(&mut self.words, word.at, word.value);
        }
    }

    // What a line gives, put into the words.
    #[tactic(auto, unfolding(crate::specs::Taking::carried))]
    fn carry_out(&mut self, t: &[Token], plan: Plan)
        ensures { self.new.words ≡ carried self.old.words t.now plan }
    {
        self.append_rows(Rows {
            table: Table::Vars,
            times: plan.free,
            step: 0,
            row: [FREE_WORD, 0, 0, 0, 0],
        });
        self.take_run(t, plan.run);
        self.take_rows(plan.rows);
        self.take_put(plan.put);
        self.take_put(plan.told);
    }

    // A new list: the fixed six sorts, the default sort Bool, and nothing else.
    #[tactic(auto, unfolding(crate::specs::Taking::begun, resolved_sort::specs::Storage::kind_flat))]
    fn begin(&mut self)
        ensures { self.new.words ≡ begun self.old.words }
    {
        clear(&mut self.words, 0, LIST_WORDS);
        put_fixed_six(&mut self.words, LIST_SORTS_AT);
        self.words[ROWS_AT] = FIXED_SORTS;
        self.words[DEFAULT_AT] = Sort::Bool.into();
        self.set_stage(Stage::Reading);
    }

    // `bare`
    #[tactic(auto, unfolding(crate::specs::Taking::bare_taken))]
    fn bare(&mut self, t: &[Token]) -> Result<Heard, Form>
        ensures { bad_marked self.new.words result ≡ bare_taken self.old.words t.now }
    {
        let sorts = rows_given(&self.words, Table::Sorts);
        let entries = rows_given(&self.words, Table::Entries);
        if t.len() == 1 && sorts == FIXED_SORTS && entries == 0 {
            clear(&mut self.words, 0, ROW_WORDS * (FIXED_SORTS as usize));
            self.words[ROWS_AT] = 0;
            return Ok(Heard::Quiet);
        }
        Err(Form::Bare)
    }

    // `? ..`
    #[tactic(auto, unfolding(crate::specs::Taking::question_taken))]
    fn question(&mut self, t: &[Token]) -> Result<Heard, Form>
        ensures { bad_marked self.new.words result ≡ question_taken self.old.words t.now }
    {
        if fits(t, &[Item::Word(Keyword::Ask), Item::Word(Keyword::Solve)]) {
            self.set_stage(Stage::Asked);
            return Ok(Heard::Asks);
        }
        if asks_other(t) {
            self.set_stage(Stage::Asked);
            return Ok(Heard::AsksOther);
        }
        Err(Form::Asks)
    }

    // A line of words, where a list has begun, by the first of them.
    #[tactic(auto, unfolding(crate::specs::Taking::words_taken))]
    fn take_words(&mut self, t: &[Token]) -> Result<Heard, Form>
        ensures { bad_marked self.new.words result ≡ words_taken self.old.words t.now }
    {
        match token_at(t, 0) {
            Token::Keyword(Keyword::Ask) => self.question(t),
            _ if self.stage_is(Stage::Asked) => Err(Form::Asked),
            Token::Keyword(Keyword::Bare) => self.bare(t),
            _ => {
                let line = Line {
                    list: &self.words,
                    words: t,
                };
                let plan = line.plan()?;
                self.carry_out(t, plan);
                Ok(Heard::Quiet)
            }
        }
    }

    // A line that is no comment, no answer and no `list`.
    #[tactic(auto, unfolding(crate::specs::Taking::other_taken))]
    fn take_other(&mut self, line: &[u8]) -> Result<Heard, Form>
        ensures { bad_marked self.new.words result ≡ other_taken self.old.words line.now }
    {
        if self.stage_is(Stage::Bad) {
            return Ok(Heard::Quiet);
        }
        if !printable(line) {
            return Err(Form::Printable);
        }
        if MAX_LINE < line.len() {
            return Err(Form::Length);
        }
        if self.stage_is(Stage::NoList) {
            return Err(Form::List);
        }
        let mut words = [Token::Other; MOST_WORDS];
        self.take_words(tokens_of(line, &mut words))
    }

    // An answer, which is not looked at.
    #[tactic(auto, unfolding(crate::specs::Taking::answer_taken))]
    fn take_answer(&self, line: &[u8]) -> Result<Heard, Form>
        ensures { bad_marked self.now.words result ≡ answer_taken self.now.words line.now }
    {
        if self.stage_is(Stage::Bad) {
            return Ok(Heard::Quiet);
        }
        if !printable(line) {
            return Err(Form::Printable);
        }
        if self.stage_is(Stage::Asked) {
            return Ok(Heard::Quiet);
        }
        Err(Form::Question)
    }

    // `list TEXT`
    #[tactic(auto, unfolding(crate::specs::Taking::list_taken))]
    fn take_list(&mut self, line: &[u8]) -> Result<Heard, Form>
        ensures { bad_marked self.new.words result ≡ list_taken self.old.words line.now }
    {
        if !printable(line) {
            return Err(Form::Printable);
        }
        if MAX_LINE < line.len() {
            return Err(Form::Length);
        }
        self.begin();
        Ok(Heard::Begins)
    }

    // A line by what it begins with.
    #[tactic(auto, unfolding(crate::specs::Taking::by_start))]
    fn take_by_start(&mut self, line: &[u8]) -> Result<Heard, Form>
        ensures { bad_marked self.new.words result ≡ by_start (line_start line.now) self.old.words line.now }
    {
        match start_of(line) {
            Start::Skipped => Ok(Heard::Quiet),
            Start::Answer => self.take_answer(line),
            Start::NewList => self.take_list(line),
            Start::Other => self.take_other(line),
        }
    }

    // What one line, without its LF, makes of the list. After a line not of the format all is skipped up to the next
    // list.
    #[tactic(auto, unfolding(crate::specs::Taking::line_taken, crate::specs::Taking::bad_line))]
    pub fn take_line(&mut self, line: &[u8]) -> Result<Heard, Form>
        ensures { taken self.new.words result ≡ line_taken self.old.words line.now }
    {
        match self.take_by_start(line) {
            Ok(heard) => Ok(heard),
            Err(form) => {
                self.set_stage(Stage::Bad);
                Err(form)
            }
        }
    }
}
