//! The lines of a node in four sections, of symbols, of marked symbols, of rules and of pairs, up to the line of
//! `drop`: in which order they come, and the lists of what they hold. The reader of a line's content is a parameter.

ghost use Rattle.std.specs.Prelude.{◌≡◌, [], IfOk, OnOk};
ghost use Rattle.wh_cert_lines.specs.Sections.{in_funs, to_marks, to_rules, to_pairs, add_named, add_shown, first_step, mark_step, rule_step, pair_step};
ghost use Rattle.wh_cert_lines.specs.SectionsViews.{lines_of, begun_went};
ghost use Rattle.wh_cert_lines.specs.declared.sections.Section.TheVariants as section;

use std::alloc::{AllocError, Global};
use wh_types::List;

/// The kind of the last line.
#[derive(Clone, Copy)]
pub enum Section {
    /// A line of a symbol.
    Funs,
    /// A line of a marked symbol.
    Marks,
    /// A line of a rule.
    Rules,
    /// A line of a pair.
    Pairs,
}

/// Where the first byte of a line leads.
#[derive(Clone, Copy)]
pub enum LineBegun {
    /// The byte begins a line of the last kind.
    Begins,
    /// The byte begins the line of `drop`.
    Drops,
    /// The byte is wrong.
    Wrong,
}

/// Where a byte of a line leads.
#[derive(Clone, Copy)]
pub enum LinesStep {
    /// The line goes on with the byte.
    On,
    /// The byte begins a line of the last kind.
    Begins,
    /// The byte begins the line of `drop`.
    Drops,
    /// The byte is wrong.
    Wrong,
}

/// What the lines so far hold: `N` in lines of symbols, `L` in lines of rules and pairs.
#[derive(Drop)]
pub struct Sections<N, L> {
    /// The kind of the last line.
    pub section: Section,
    /// What lines of symbols hold.
    pub funs: List<N>,
    /// What lines of marked symbols hold.
    pub marks: List<N>,
    /// What lines of rules hold.
    pub rules: List<L>,
    /// What lines of pairs hold.
    pub pairs: List<L>,
}

impl<N: Drop, L: Drop> Sections<N, L> {
    /// The lists before all lines.
    pub fn new(alloc: Global) -> Self
        ensures { lines_of result ≡ in_funs [] }
    {
        Sections {
            section: Section::Funs,
            funs: List::new(alloc),
            marks: List::new(alloc),
            rules: List::new(alloc),
            pairs: List::new(alloc),
        }
    }

    /// Goes back to before all lines.
    pub fn restart(&mut self, alloc: Global) -> Result<(), AllocError>
        ensures { OnOk result (lines_of self.new ≡ in_funs []) }
    {
        self.funs = List::new(alloc);
        self.section = Section::Funs;
        Ok(())
    }

    /// Lines of marked symbols come.
    fn enter_marks(&mut self, alloc: Global) -> Result<(), AllocError>
        ensures { OnOk result (lines_of self.new ≡ to_marks (lines_of self.old)) }
    {
        if matches!(self.section, Section::Funs) {
            self.marks = List::new(alloc);
            self.section = Section::Marks;
        }
        Ok(())
    }

    /// Lines of rules come.
    fn enter_rules(&mut self, alloc: Global) -> Result<(), AllocError>
        ensures { OnOk result (lines_of self.new ≡ to_rules (lines_of self.old)) }
    {
        self.enter_marks(alloc)?;
        if matches!(self.section, Section::Marks) {
            self.rules = List::new(alloc);
            self.section = Section::Rules;
        }
        Ok(())
    }

    /// Lines of pairs come.
    pub fn enter_pairs(&mut self, alloc: Global) -> Result<(), AllocError>
        ensures lines { OnOk result (lines_of self.new ≡ to_pairs (lines_of self.old)) }
        ensures last { OnOk result (self.new.section ≡ section.Pairs) }
    {
        self.enter_rules(alloc)?;
        if matches!(self.section, Section::Rules) {
            self.pairs = List::new(alloc);
        }
        self.section = Section::Pairs;
        Ok(())
    }

    /// Where the first byte of a line leads.
    pub fn begin(&mut self, alloc: Global, byte: u8) -> Result<LineBegun, AllocError>
        ensures { IfOk result (λ went. begun_went went self.new ≡ first_step (lines_of self.old) byte) }
    {
        match self.section {
            Section::Funs => {
                if byte == b'f' {
                    return Ok(LineBegun::Begins);
                }
                self.begin_mark(alloc, byte)
            }
            Section::Marks => self.begin_mark(alloc, byte),
            Section::Rules => self.begin_rule(alloc, byte),
            Section::Pairs => self.begin_pair(alloc, byte),
        }
    }

    /// The first byte of a line that is no line of a symbol.
    fn begin_mark(&mut self, alloc: Global, byte: u8) -> Result<LineBegun, AllocError>
        ensures { IfOk result (λ went. begun_went went self.new ≡ mark_step (lines_of self.old) byte) }
    {
        if byte == b'm' {
            self.enter_marks(alloc)?;
            return Ok(LineBegun::Begins);
        }
        self.begin_rule(alloc, byte)
    }

    /// The first byte of a line of a rule or a pair, or of that of `drop`.
    fn begin_rule(&mut self, alloc: Global, byte: u8) -> Result<LineBegun, AllocError>
        ensures { IfOk result (λ went. begun_went went self.new ≡ rule_step (lines_of self.old) byte) }
    {
        if byte == b'r' {
            self.enter_rules(alloc)?;
            return Ok(LineBegun::Begins);
        }
        self.begin_pair(alloc, byte)
    }

    /// The first byte of a line of a pair, or of that of `drop`.
    fn begin_pair(&mut self, alloc: Global, byte: u8) -> Result<LineBegun, AllocError>
        ensures { IfOk result (λ went. begun_went went self.new ≡ pair_step (lines_of self.old) byte) }
    {
        if byte == b'p' {
            self.enter_pairs(alloc)?;
            return Ok(LineBegun::Begins);
        }
        if byte == b'd' {
            self.enter_pairs(alloc)?;
            return Ok(LineBegun::Drops);
        }
        Ok(LineBegun::Wrong)
    }

    /// One more line of a symbol, or of a marked symbol. In a later section it is passed over.
    pub fn push_named(&mut self, item: N) -> Result<(), AllocError>
        ensures { OnOk result (lines_of self.new ≡ add_named (lines_of self.old) item) }
    {
        match self.section {
            Section::Funs => self.funs.push(item),
            Section::Marks => self.marks.push(item),
            Section::Rules | Section::Pairs => Ok(()),
        }
    }

    /// One more line of a rule, or of a pair. In an earlier section it is passed over.
    pub fn push_shown(&mut self, item: L) -> Result<(), AllocError>
        ensures { OnOk result (lines_of self.new ≡ add_shown (lines_of self.old) item) }
    {
        match self.section {
            Section::Rules => self.rules.push(item),
            Section::Pairs => self.pairs.push(item),
            Section::Funs | Section::Marks => Ok(()),
        }
    }
}
