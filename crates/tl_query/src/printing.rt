//! Writing a statement as a text, which spells it again: one space between tokens, none after `(`
//! and before `)` and `,`, numbers without leading zeros.
ghost use Rattle.std.specs.Prelude.{◌≡◌, false, ◌≤◌, ◌++◌, ◌||◌, length, OnOk, IfOk, Some};
ghost use Rattle.std.specs.Fmt.{signed_decimal};
ghost use Rattle.tl_types.specs.declared.keywords.Keyword.TheVariants as words;
ghost use Rattle.tl_query.specs.declared.terminals.Terminal.TheVariants as terminals;
ghost use Rattle.tl_query.specs.declared.ast.Statement.{Statement};
ghost use Rattle.tl_query.specs.Grammar.{terminal, version, bound, constant, kind_keyword, cmp_terminal, agg_keyword, item_parts, column_parts, valid_parts, test_parts, conj_parts, where_parts, valid_at_parts, version_or_moment_parts, as_of_parts, column_name_parts, by_parts, over_parts, create_parts, asked_parts, select_parts, agg_parts, join_parts, each_after, separated, statement_parts};
ghost use Rattle.tl_query.specs.Parsed.{IsParsed};
ghost use Rattle.tl_query.specs.Printing.{Written, text_constant, cell_text, gap, terminal_word, plain_word, bound_word, put, write, nothing, text_of};
ghost use Rattle.tl_query.specs.Terminals.{soft_spelling};
ghost use Rattle.tl_query.specs.Texts.{SpellsAgain};

use crate::ast::{
    AggForm, AggKind, AsOf, ColumnForm, CreateForm, Item, JoinForm, Name, Over, Pred, Query,
    SelectForm, Stamp, Statement, Test, ValidPoint,
};
use crate::terminals::{SoftWord, Terminal, same_terminal, soft_spelling, spelling};
use std::alloc::Global;
use std::marker::Model;
use tl_types::{Bytes, Cell, Cmp, ColumnKind, Keyword, NoMemory, Seq};

/// What is written so far, and whether what follows stands after it with no space.
#[derive(Drop)]
struct Printer {
    alloc: Global,
    bytes: Vec<u8>,
    tight: bool,
}

impl Model for Printer {
    ghost use Rattle.tl_query.specs.Printing.{Written};

    ghost Value = { Written };

    ghost view = { λ p. record { bytes = p.bytes.items; tight = p.tight } };
}

// A text constant of these bytes.
fn text_constant(alloc: Global, text: &[u8]) -> Result<Vec<u8>, NoMemory>
    ensures { IfOk result (λ bytes. bytes.items ≡ text_constant text.now) }
{
    let mut bytes = Vec::new(alloc);
    bytes.push(b'\'')?;
    for byte in text {
        if *byte == b'\'' {
            bytes.push(b'\'')?;
        }
        bytes.push(*byte)?;
    }
    bytes.push(b'\'')?;
    Ok(bytes)
}

fn kind_keyword(kind: ColumnKind) -> Keyword
    ensures { result ≡ kind_keyword kind }
{
    match kind {
        ColumnKind::IntKind => Keyword::Int,
        ColumnKind::TextKind => Keyword::Text,
    }
}

fn cmp_terminal(cmp: Cmp) -> Terminal
    ensures { result ≡ cmp_terminal cmp }
{
    match cmp {
        Cmp::Eq => Terminal::Equal,
        Cmp::Ne => Terminal::Unequal,
        Cmp::Lt => Terminal::Less,
        Cmp::Le => Terminal::AtMost,
        Cmp::Gt => Terminal::Greater,
        Cmp::Ge => Terminal::AtLeast,
    }
}

fn agg_keyword(kind: AggKind) -> Keyword
    ensures { result ≡ agg_keyword kind }
{
    match kind {
        AggKind::Count => Keyword::Count,
        AggKind::Sum => Keyword::Sum,
        AggKind::Avg => Keyword::Avg,
        AggKind::Min => Keyword::Min,
        AggKind::Max => Keyword::Max,
    }
}

impl Printer {
    fn new(alloc: Global) -> Printer
        ensures { result ≡ nothing }
    {
        Printer {
            alloc,
            bytes: Vec::new(alloc),
            tight: true,
        }
    }

    // A space, where the next part does not follow with none.
    fn space(&mut self, tight: bool) -> Result<(), NoMemory>
        ensures { OnOk result (self.new ≡ record self.old {
          bytes = self.old.bytes ++ gap (self.old.tight || tight);
        }) }
    {
        if !(self.tight || tight) {
            self.bytes.push(b' ')?;
        }
        Ok(())
    }

    fn text(&mut self, text: &[u8]) -> Result<(), NoMemory>
        ensures { OnOk result (self.new ≡ record self.old { bytes = self.old.bytes ++ text.now }) }
    {
        self.bytes.extend_from_slice(text)?;
        Ok(())
    }

    // A keyword or a symbol.
    #[tactic(auto, unfolding(crate::specs::Printing::put))]
    fn terminal(&mut self, terminal: Terminal) -> Result<(), NoMemory>
        ensures { OnOk result (self.new ≡ put self.old (terminal_word terminal)) }
    {
        let closes = same_terminal(terminal, Terminal::Close)
            || same_terminal(terminal, Terminal::Comma);
        self.space(closes)?;
        self.text(spelling(terminal).as_bytes())?;
        self.tight = same_terminal(terminal, Terminal::Open);
        Ok(())
    }

    // A keyword.
    fn keyword(&mut self, keyword: Keyword) -> Result<(), NoMemory>
        ensures { OnOk result (self.new
            ≡ put self.old (terminal_word (terminals.Keyword keyword))) }
    {
        self.terminal(Terminal::Keyword(keyword))
    }

    // What is no keyword and no symbol.
    #[tactic(auto, unfolding(crate::specs::Printing::put))]
    fn word(&mut self, text: &[u8]) -> Result<(), NoMemory>
        ensures { OnOk result (self.new ≡ put self.old (plain_word text.now)) }
    {
        self.space(false)?;
        self.text(text)?;
        self.tight = false;
        Ok(())
    }

    fn name(&mut self, name: &Name) -> Result<(), NoMemory>
        ensures { OnOk result (self.new ≡ put self.old (plain_word name.now.text)) }
    {
        self.word(name.text.as_bytes())
    }

    fn number(&mut self, value: i64) -> Result<(), NoMemory>
        ensures { OnOk result (self.new ≡ put self.old (plain_word (signed_decimal value))) }
    {
        let text = format!(in self.alloc; "{value}")?;
        self.word(text.as_bytes())
    }

    fn version(&mut self, stamp: Stamp) -> Result<(), NoMemory>
        ensures { OnOk result (self.new ≡ put self.old (plain_word (signed_decimal stamp.value))) }
    {
        self.number(stamp.value)
    }

    fn bound(&mut self, stamp: Stamp) -> Result<(), NoMemory>
        ensures { OnOk result (self.new ≡ put self.old (bound_word stamp.value)) }
    {
        if stamp.value == i64::MAX {
            self.keyword(Keyword::Forever)
        } else {
            self.number(stamp.value)
        }
    }

    fn constant(&mut self, cell: &Cell) -> Result<(), NoMemory>
        ensures { OnOk result (self.new ≡ put self.old (plain_word (cell_text cell.now))) }
    {
        match cell {
            Cell::Int(value) => self.number(*value),
            Cell::Text(text) => {
                let text = text_constant(self.alloc, text.as_bytes())?;
                self.word(text.as_slice())
            }
        }
    }

    fn column(&mut self, column: &ColumnForm) -> Result<(), NoMemory>
        ensures { OnOk result (self.new ≡ write self.old (column_parts column.now)) }
    {
        self.name(&column.name)?;
        self.keyword(kind_keyword(column.kind))?;
        Ok(())
    }

    fn further_columns(&mut self, columns: &[ColumnForm]) -> Result<(), NoMemory>
        ensures { OnOk result (self.new
            ≡ write self.old (each_after terminals.Comma column_parts columns.now)) }
    {
        for column in columns {
            self.terminal(Terminal::Comma)?;
            self.column(column)?;
        }
        Ok(())
    }

    #[tactic(auto, using(crate::proofs::Writing::write_append))]
    fn columns(&mut self, columns: &[ColumnForm]) -> Result<(), NoMemory>
        ensures { OnOk result (self.new
            ≡ write self.old (separated terminals.Comma column_parts columns.now)) }
    {
        if let [column, rest @ ..] = columns {
            self.column(column)?;
            self.further_columns(rest)?;
        }
        Ok(())
    }

    fn valid(&mut self, valid: bool) -> Result<(), NoMemory>
        ensures { OnOk result (self.new ≡ write self.old (valid_parts valid)) }
    {
        if valid {
            self.keyword(Keyword::Valid)?;
        }
        Ok(())
    }

    #[tactic(auto, using(crate::proofs::Writing::write_append))]
    fn create(&mut self, form: &CreateForm) -> Result<(), NoMemory>
        ensures { OnOk result (self.new ≡ write self.old (create_parts form.now)) }
    {
        self.keyword(Keyword::Create)?;
        self.keyword(Keyword::Table)?;
        self.name(&form.name)?;
        self.terminal(Terminal::Open)?;
        self.columns(form.columns.as_slice())?;
        self.terminal(Terminal::Close)?;
        self.keyword(Keyword::Key)?;
        self.name(&form.key)?;
        self.valid(form.valid)?;
        Ok(())
    }

    fn item(&mut self, item: &Item) -> Result<(), NoMemory>
        ensures { OnOk result (self.new ≡ write self.old (item_parts item.now)) }
    {
        match item {
            Item::Column(name) => self.name(name)?,
            Item::ValidFrom(_) => self.keyword(Keyword::ValidFrom)?,
            Item::ValidTo(_) => self.keyword(Keyword::ValidTo)?,
        }
        Ok(())
    }

    fn further_items(&mut self, items: &[Item]) -> Result<(), NoMemory>
        ensures { OnOk result (self.new
            ≡ write self.old (each_after terminals.Comma item_parts items.now)) }
    {
        for item in items {
            self.terminal(Terminal::Comma)?;
            self.item(item)?;
        }
        Ok(())
    }

    #[tactic(auto, using(crate::proofs::Writing::write_append))]
    fn items(&mut self, items: &[Item]) -> Result<(), NoMemory>
        ensures { OnOk result (self.new
            ≡ write self.old (separated terminals.Comma item_parts items.now)) }
    {
        if let [item, rest @ ..] = items {
            self.item(item)?;
            self.further_items(rest)?;
        }
        Ok(())
    }

    fn asked(&mut self, all: bool, items: &[Item]) -> Result<(), NoMemory>
        ensures { OnOk result (self.new ≡ write self.old (asked_parts all items.now)) }
    {
        if all {
            self.terminal(Terminal::Star)?;
        } else {
            self.items(items)?;
        }
        Ok(())
    }

    fn test(&mut self, test: &Test) -> Result<(), NoMemory>
        ensures { OnOk result (self.new ≡ write self.old (test_parts test.now)) }
    {
        self.name(&test.column)?;
        self.terminal(cmp_terminal(test.cmp))?;
        self.constant(&test.value)?;
        Ok(())
    }

    fn further_tests(&mut self, tests: &[Test]) -> Result<(), NoMemory>
        ensures { OnOk result (self.new
            ≡ write self.old (each_after (terminals.Keyword words.And) test_parts tests.now)) }
    {
        for test in tests {
            self.keyword(Keyword::And)?;
            self.test(test)?;
        }
        Ok(())
    }

    #[tactic(auto, using(crate::proofs::Writing::write_append))]
    fn tests(&mut self, tests: &[Test]) -> Result<(), NoMemory>
        ensures { OnOk result (self.new
            ≡ write self.old (separated (terminals.Keyword words.And) test_parts tests.now)) }
    {
        if let [test, rest @ ..] = tests {
            self.test(test)?;
            self.further_tests(rest)?;
        }
        Ok(())
    }

    fn further_any(&mut self, any: &[Seq<Test>]) -> Result<(), NoMemory>
        ensures { OnOk result (self.new
            ≡ write self.old (each_after (terminals.Keyword words.Or) conj_parts any.now)) }
    {
        for tests in any {
            self.keyword(Keyword::Or)?;
            self.tests(tests.as_slice())?;
        }
        Ok(())
    }

    fn any(&mut self, any: &[Seq<Test>]) -> Result<(), NoMemory>
        ensures { OnOk result (self.new
            ≡ write self.old (separated (terminals.Keyword words.Or) conj_parts any.now)) }
    {
        if let [tests, ..] = any {
            let (_, rest) = any.split_at(1);
            self.tests(tests.as_slice())?;
            self.further_any(rest)?;
        }
        Ok(())
    }

    fn where_tests(&mut self, pred: &Pred) -> Result<(), NoMemory>
        ensures { OnOk result (self.new ≡ write self.old (where_parts pred.now)) }
    {
        if !pred.any.is_empty() {
            self.keyword(Keyword::Where)?;
        }
        self.any(pred.any.as_slice())?;
        Ok(())
    }

    fn valid_at(&mut self, point: Option<ValidPoint>) -> Result<(), NoMemory>
        ensures { OnOk result (self.new ≡ write self.old (valid_at_parts point)) }
    {
        if let Some(point) = point {
            self.keyword(Keyword::Valid)?;
            self.keyword(Keyword::At)?;
            self.number(point.value)?;
        }
        Ok(())
    }

    // A word that is a name elsewhere.
    fn soft_word(&mut self, word: SoftWord) -> Result<(), NoMemory>
        ensures { OnOk result (self.new ≡ put self.old (plain_word (soft_spelling word))) }
    {
        self.word(soft_spelling(word).as_bytes())
    }

    fn version_or_moment(&mut self, as_of: AsOf) -> Result<(), NoMemory>
        ensures { OnOk result (self.new ≡ write self.old (version_or_moment_parts as_of)) }
    {
        match as_of {
            AsOf::Version(version) => self.version(version)?,
            AsOf::Moment(moment) => {
                self.soft_word(SoftWord::Moment)?;
                self.number(moment.value)?;
            }
        }
        Ok(())
    }

    fn as_of(&mut self, as_of: Option<AsOf>) -> Result<(), NoMemory>
        ensures { OnOk result (self.new ≡ write self.old (as_of_parts as_of)) }
    {
        if let Some(as_of) = as_of {
            self.keyword(Keyword::As)?;
            self.keyword(Keyword::Of)?;
            self.version_or_moment(as_of)?;
        }
        Ok(())
    }

    #[tactic(auto, using(crate::proofs::Writing::write_append))]
    fn select(&mut self, form: &SelectForm) -> Result<(), NoMemory>
        ensures { OnOk result (self.new ≡ write self.old (select_parts form.now)) }
    {
        self.keyword(Keyword::Select)?;
        self.asked(form.all, form.items.as_slice())?;
        self.keyword(Keyword::From)?;
        self.name(&form.table)?;
        self.where_tests(&form.pred)?;
        self.valid_at(form.valid_at)?;
        self.as_of(form.as_of)?;
        Ok(())
    }

    fn column_name(&mut self, column: &Option<Name>) -> Result<(), NoMemory>
        ensures { OnOk result (self.new ≡ write self.old (column_name_parts column.now)) }
    {
        if let Some(name) = column {
            self.name(name)?;
        }
        Ok(())
    }

    fn by(&mut self, column: &Option<Name>) -> Result<(), NoMemory>
        ensures { OnOk result (self.new ≡ write self.old (by_parts column.now)) }
    {
        if let Some(name) = column {
            self.keyword(Keyword::By)?;
            self.name(name)?;
        }
        Ok(())
    }

    // Writes the range of versions or of valid time that is asked over.
    fn over(&mut self, over: Over) -> Result<(), NoMemory>
        ensures { OnOk result (self.new ≡ write self.old (over_parts over)) }
    {
        self.keyword(Keyword::Over)?;
        match over {
            Over::SystemAll => {
                self.keyword(Keyword::System)?;
                self.keyword(Keyword::All)?;
            }
            Over::System { from, to } => {
                self.keyword(Keyword::System)?;
                self.version(from)?;
                self.keyword(Keyword::To)?;
                self.version(to)?;
            }
            Over::Valid {
                pos: _,
                from,
                to,
                as_of,
            } => {
                self.keyword(Keyword::Valid)?;
                self.bound(from)?;
                self.keyword(Keyword::To)?;
                self.bound(to)?;
                self.as_of(as_of)?;
            }
        }
        Ok(())
    }

    #[tactic(auto, using(crate::proofs::Writing::write_append))]
    fn agg(&mut self, form: &AggForm) -> Result<(), NoMemory>
        ensures { OnOk result (self.new ≡ write self.old (agg_parts form.now)) }
    {
        self.keyword(agg_keyword(form.kind))?;
        self.column_name(&form.column)?;
        self.keyword(Keyword::From)?;
        self.name(&form.table)?;
        self.where_tests(&form.pred)?;
        self.by(&form.by)?;
        self.over(form.over)?;
        Ok(())
    }

    // Writes a query for pairs.
    #[tactic(auto, using(crate::proofs::Writing::write_append))]
    fn join(&mut self, form: &JoinForm) -> Result<(), NoMemory>
        ensures { OnOk result (self.new ≡ write self.old (join_parts form.now)) }
    {
        self.keyword(Keyword::Join)?;
        self.name(&form.left)?;
        self.where_tests(&form.left_pred)?;
        self.keyword(Keyword::With)?;
        self.name(&form.right)?;
        self.where_tests(&form.right_pred)?;
        self.keyword(Keyword::On)?;
        self.name(&form.left_on)?;
        self.terminal(Terminal::Equal)?;
        self.name(&form.right_on)?;
        self.over(form.over)?;
        Ok(())
    }

    // Writes a statement.
    fn statement(&mut self, statement: &Statement) -> Result<(), NoMemory>
        ensures { OnOk result (self.new ≡ write self.old (statement_parts statement.now)) }
    {
        match statement {
            Statement::Create(form) => self.create(form)?,
            Statement::Put(name) => {
                self.keyword(Keyword::Put)?;
                self.name(name)?;
            }
            Statement::Remove(name) => {
                self.keyword(Keyword::Remove)?;
                self.name(name)?;
            }
            Statement::Sync(name) => {
                self.soft_word(SoftWord::Sync)?;
                self.name(name)?;
            }
            Statement::Ask(Query::Select(form)) => self.select(form)?,
            Statement::Ask(Query::Agg(form)) => self.agg(form)?,
            Statement::Ask(Query::Join(form)) => self.join(form)?,
            Statement::Moment(moment) => {
                self.soft_word(SoftWord::Moment)?;
                self.number(moment.value)?;
            }
            Statement::Forget { table, floor } => {
                self.soft_word(SoftWord::Forget)?;
                self.name(table)?;
                self.soft_word(SoftWord::Before)?;
                self.version(*floor)?;
            }
        }
        Ok(())
    }
}

/// The text of a statement that some text spells, as each is that `parse` gives: its tokens with
/// one space between two of them, but none after `(`, before `)` and before `,`; numbers without
/// leading zeros, the last valid time as a bound as `FOREVER`, a quote in a text constant twice,
/// and no `;`. The error is that memory ran out.
pub fn print(alloc: Global, statement: &Statement) -> Result<Bytes, NoMemory>
    requires { IsParsed statement.now }
    // The bytes are the statement's text.
    ensures value { IfOk result (λ text. text ≡ text_of statement.now) }
    // Where that text isn't too long, what `parse` gives for it is the statement but for its
    // offsets.
    ensures again { IfOk result (λ text. length text ≤ 65536 → SpellsAgain text statement.now) }
{
    let mut printer = Printer::new(alloc);
    printer.statement(statement)?;
    let Printer {
        alloc: _,
        bytes,
        tight: _,
    } = printer;
    Ok(Bytes::from_vec(bytes))
}
