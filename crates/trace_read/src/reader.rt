//! The state machine of a trace's lines: a line, given as words, is taken in its place, or refused
//! with its reason.
ghost use Rattle.std.specs.Prelude.{◌≡◌, ◌<◌, ◌≤◌, ◌^◌, true, false, length};
ghost use Rattle.pool_range.specs.Ranges.{IsPoolRange};
ghost use Rattle.trace_read.specs.Acts.{read_act, dump_act};
ghost use Rattle.trace_read.specs.Entries.{with_entry};
ghost use Rattle.trace_read.specs.Forms.{form_of, IsNamedForm};
ghost use Rattle.trace_read.specs.Givens.{given_by, given_if};
ghost use Rattle.trace_read.specs.Grammar.{reading_beside, after_text, after_words, after_form, set_to, after_act, with_run_line};
ghost use Rattle.trace_read.specs.Places.{is_first, is_running, may_have_entries, may_have_windows, comes_at};
ghost use Rattle.trace_read.specs.Read.{Reads, ReadsTo};
ghost use Rattle.trace_read.specs.Settings.{with_order, with_limit, with_cpus, with_pool, with_granted, with_begin};
ghost use Rattle.trace_read.specs.TextLines.{texts};
ghost use Rattle.trace_read.specs.Windows.{with_window};
ghost use Rattle.trace_line.specs.Lines.{IsSpelt, most_lines};
ghost use Rattle.trace_read.specs.Configuration.{IsTraceOrder};

use crate::acts::{dump_act, read_act};
use crate::counted::CountedLines;
use crate::forms::{Form, line_form};
use crate::given::{Given, LineRefused};
use crate::grant_line::{grant_named, refused_by};
use crate::lines::is_remark_line;
use crate::settings::Settings;
use crate::stage::Stage;
use crate::stop::Stop;
use crate::trace::Trace;
use crate::verbs::Verb;
use crate::why::Why;
use frame_grants::{Grants, Kind};
use std::alloc::Global;
use std::marker::Model;
use trace_line::{Act, TraceLine};

/// What the lines so far have given, and what may come next. A line that is refused changes
/// nothing.
#[derive(Drop)]
pub struct Reader {
    taken: u32,
    stage: Stage,
    settings: Settings,
    lines: CountedLines,
}

impl Model for Reader {
    ghost use Rattle.trace_read.specs.Grammar.{Reading, IsReading};

    ghost Value = { Reading };

    ghost view = { λ r.
        record { taken = r.taken; stage = r.stage; config = r.settings; lines = r.lines } };

    ghost invariant = { λ r.
        IsReading
        (record { taken = r.taken; stage = r.stage; config = r.settings; lines = r.lines }) };
}

impl Reader {
    /// Before the first line, with this pool.
    pub fn new(alloc: Global, pool_base: u64, pool_order: u8) -> Self
        requires { IsPoolRange pool_base pool_order }
        ensures { result ≡ reading_beside pool_base pool_order }
    {
        Reader {
            taken: 0,
            stage: Stage::Order,
            settings: Settings::new(alloc, pool_base, pool_order),
            lines: CountedLines::new(alloc),
        }
    }

    /// The number of the last line that was taken, and 0 before the first.
    pub fn taken(&self) -> u32
        ensures count { result ≡ self.now.taken }
        ensures few { result ≤ most_lines }
    {
        self.taken
    }

    /// Whether the configuration has ended.
    pub fn is_running(&self) -> bool
        ensures { result ≡ is_running self.now.stage }
    {
        self.stage.is_running()
    }

    /// How many run lines there are so far.
    pub fn lines(&self) -> usize
        ensures count { result ≡ length self.now.lines }
        ensures few { result ≤ most_lines }
    {
        self.lines.count()
    }

    /// The binary logarithm of the size in bytes of the opening table, as the lines so far have it.
    pub fn order(&self) -> u8
        ensures value { result ≡ self.now.config.order }
        ensures order { IsTraceOrder result }
    {
        self.settings.order()
    }

    /// The memory that is granted so far.
    pub fn grants(&self) -> &Grants
        ensures { result.now ≡ self.now.config.granted }
    {
        self.settings.grants()
    }

    /// The trace that the lines have given.
    pub fn into_trace(self) -> Trace
        requires { is_running self.stage ≡ true }
        ensures { result ≡ record { config = self.config; lines = self.lines } }
    {
        let Reader {
            taken: _,
            stage: _,
            settings,
            lines,
        } = self;
        Trace {
            config: settings.into_config(),
            lines: lines.into_lines(),
        }
    }

    /// Takes a line with these words, which has this number.
    #[tactic(auto, unfolding(crate::specs::Grammar::after_text))]
    pub fn take(&mut self, number: u32, words: &[&[u8]]) -> Result<Given, LineRefused>
        requires next { self.old.taken < number }
        requires few { number ≤ most_lines }
        ensures { Reads
            (after_text (record self.old { taken = number }) (texts words.now))
            (texts words.now)
            result
            self.old
            self.new }
    {
        if is_remark_line(words) {
            self.taken = number;
            return Ok(Given::Remark);
        }
        match self.take_words(number, words) {
            Ok(given) => Ok(given),
            Err(stop) => Err(refused_by(stop, words)),
        }
    }

    #[tactic(auto, unfolding(crate::specs::Grammar::after_words))]
    fn take_words(&mut self, number: u32, words: &[&[u8]]) -> Result<Given, Stop>
        requires next { self.old.taken < number }
        requires few { number ≤ most_lines }
        ensures { ReadsTo
            (after_words (record self.old { taken = number }) (texts words.now))
            (given_if (form_of (texts words.now)) self.old.config (texts words.now))
            result
            self.old
            self.new }
    {
        let form = line_form(words)?;
        if !self.stage.admits(form) {
            return Err(Stop::Refused(Why::Place));
        }
        self.take_form(number, form, words)
    }

    #[tactic(auto, unfolding(crate::specs::Grammar::after_form))]
    fn take_form(&mut self, number: u32, form: Form, words: &[&[u8]]) -> Result<Given, Stop>
        requires next { self.old.taken < number }
        requires few { number ≤ most_lines }
        requires place { comes_at form self.old.stage ≡ true }
        requires named { IsNamedForm form }
        ensures { ReadsTo
            (after_form form (record self.old { taken = number }) (texts words.now))
            (given_by form self.old.config (texts words.now))
            result
            self.old
            self.new }
    {
        match form {
            Form::Grant(kind) => return self.take_grant(number, kind, words),
            Form::Begin => return self.take_begin(number, words),
            Form::Run(verb) => return self.take_run(number, verb, words),
            Form::Dump => return self.take_dump(number, words),
            Form::Order => {
                self.settings.take_order(words)?;
                self.stage = Stage::Limit;
            }
            Form::Limit => {
                self.settings.take_limit(words)?;
                self.stage = Stage::Cpus;
            }
            Form::Cpus => {
                self.settings.take_cpus(words)?;
                self.stage = Stage::Pool;
            }
            Form::Pool => {
                self.settings.take_pool(words)?;
                self.stage = Stage::Grants;
            }
            Form::Entry => {
                self.settings.take_entry(words)?;
                self.stage = Stage::Entries;
            }
            Form::Window => {
                self.settings.take_window(words)?;
                self.stage = Stage::Windows;
            }
        }
        self.taken = number;
        Ok(Given::Setting)
    }

    #[tactic(auto, unfolding(crate::specs::Settings::with_granted))]
    fn take_grant(&mut self, number: u32, kind: Kind, words: &[&[u8]]) -> Result<Given, Stop>
        requires next { self.old.taken < number }
        requires few { number ≤ most_lines }
        requires place { may_have_entries self.old.stage ≡ false }
        ensures { ReadsTo
            (set_to
            (record self.old { taken = number })
            Stage.Grants
            (with_granted self.old.config kind (texts words.now)))
            (given_by (Form.Grant kind) self.old.config (texts words.now))
            result
            self.old
            self.new }
    {
        let grant = grant_named(kind, words)?;
        self.settings.add_grant(grant)?;
        self.stage = Stage::Grants;
        self.taken = number;
        Ok(Given::Grant(grant))
    }

    fn take_begin(&mut self, number: u32, words: &[&[u8]]) -> Result<Given, Stop>
        requires next { self.old.taken < number }
        requires few { number ≤ most_lines }
        requires place { is_running self.old.stage ≡ false }
        ensures { ReadsTo
            (set_to
            (record self.old { taken = number })
            Stage.Lines
            (with_begin self.old.config (texts words.now)))
            (Given.Begin self.old.config.order)
            result
            self.old
            self.new }
    {
        let order = self.settings.order();
        self.settings.take_begin(words)?;
        self.stage = Stage::Lines;
        self.taken = number;
        Ok(Given::Begin { order })
    }

    #[tactic(auto, unfolding(crate::specs::Grammar::after_act))]
    fn take_run(&mut self, number: u32, verb: Option<Verb>, words: &[&[u8]]) -> Result<Given, Stop>
        requires next { self.old.taken < number }
        requires few { number ≤ most_lines }
        requires place { is_running self.old.stage ≡ true }
        requires named { IsNamedForm (Form.Run verb) }
        ensures { ReadsTo
            (after_act
            (record self.old { taken = number })
            (read_act self.old.config.cpus verb (texts words.now)))
            Given.Run
            result
            self.old
            self.new }
    {
        let (cpu, act) = read_act(self.settings.cpus(), verb, words)?;
        self.add(number, cpu, act)
    }

    #[tactic(auto, unfolding(crate::specs::Grammar::after_act))]
    fn take_dump(&mut self, number: u32, words: &[&[u8]]) -> Result<Given, Stop>
        requires next { self.old.taken < number }
        requires few { number ≤ most_lines }
        requires place { is_running self.old.stage ≡ true }
        ensures { ReadsTo
            (after_act (record self.old { taken = number }) (dump_act (texts words.now)))
            Given.Run
            result
            self.old
            self.new }
    {
        let (cpu, act) = dump_act(words)?;
        prove!(cpu < self.settings.cpus());
        self.add(number, cpu, act)
    }

    /// Adds a run line.
    fn add(&mut self, number: u32, cpu: u32, act: Act) -> Result<Given, Stop>
        requires next { self.old.taken < number }
        requires few { number ≤ most_lines }
        requires place { is_running self.old.stage ≡ true }
        requires cpu { cpu < self.old.config.cpus }
        requires spelt { IsSpelt act }
        ensures { ReadsTo
            (with_run_line (record self.old { taken = number }) cpu act)
            Given.Run
            result
            self.old
            self.new }
    {
        self.lines.check(&act)?;
        self.lines.push(TraceLine { number, cpu, act })?;
        self.taken = number;
        Ok(Given::Run)
    }
}
