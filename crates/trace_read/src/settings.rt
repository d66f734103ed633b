//! The configuration while it is read: each kind of line tests its words against the limits and the
//! earlier lines.
ghost use Rattle.std.specs.Prelude.{◌≡◌, ◌<◌, ◌≤◌, ◌++◌, [], ◌∷◌, false, length, IfOk, OnOk};
ghost use Rattle.trace_read.specs.Configuration.{AreOpeningEntries, IsTraceOrder, greatest_trace_order};
ghost use Rattle.trace_read.specs.Entries.{entry_named, with_entry};
ghost use Rattle.trace_read.specs.Read.{ReadsTo};
ghost use Rattle.trace_read.specs.TextLines.{texts};
ghost use Rattle.trace_read.specs.Windows.{has_number, window_named, with_window};
ghost use Rattle.trace_read.specs.Settings.{settings_beside, number_within, with_order, with_limit, with_cpus, with_pool, with_checked_grant, with_begin, SetsTo};
ghost use Rattle.bus_window.specs.Windows.{IsWindow};
ghost use Rattle.frame_grants.specs.Grants.{add_refusal};
ghost use Rattle.pool_range.specs.Ranges.{IsPoolRange};

use crate::acts::{number_at, word_at};
use crate::config::{Config, GREATEST_TRACE_ORDER, MOST_PROCESSORS};
use crate::entries::EntryLines;
use crate::entry_line::{is_above, is_stored, layout_named, words_spelt};
use crate::pool_line::pool_named;
use crate::stop::Stop;
use crate::why::{Why, grant_why};
use crate::windows::WindowLines;
use bus_window::Window;
use frame_grants::{Grant, Grants};
use hpte_fields::{LEAST_ORDER, entry_count};
use std::alloc::Global;
use std::marker::Model;
use table_image::ImageEntry;

// The number of a line that has one, within these bounds.
#[tactic(auto, unfolding(crate::specs::Settings::number_within))]
fn number_within(words: &[&[u8]], low: u64, high: u64) -> Result<u64, Why>
    ensures value { result ≡ number_within (texts words.now) low high }
    ensures low { IfOk result (λ number. low ≤ number) }
    ensures high { IfOk result (λ number. number ≤ high) }
{
    if words.len() != 2 {
        return Err(Why::Count);
    }
    let number = number_at(words, 1)?;
    if number < low || number > high {
        return Err(Why::Range);
    }
    Ok(number)
}

/// What the configuration lines so far have given.
#[derive(Drop)]
pub struct Settings {
    order: u8,
    limit: u8,
    cpus: u32,
    pool_base: u64,
    pool_order: u8,
    grants: Grants,
    entries: EntryLines,
    windows: WindowLines,
}

impl Model for Settings {
    ghost use Rattle.trace_read.specs.Configuration.{Configuration, AreSettings, AreOpeningEntries};

    ghost Value = { Configuration };

    ghost view = { λ s.
        record {
          order = s.order;
          limit = s.limit;
          cpus = s.cpus;
          granted = s.grants;
          entries = s.entries;
          windows = s.windows;
        } };

    ghost invariant = { λ s.
        AreSettings s.order s.limit s.cpus s.pool_base s.pool_order s.grants
        × AreOpeningEntries s.order s.grants.grants s.entries };
}

impl Settings {
    /// The settings of a trace without configuration lines, with this pool.
    pub fn new(alloc: Global, pool_base: u64, pool_order: u8) -> Self
        requires { IsPoolRange pool_base pool_order }
        ensures { result ≡ settings_beside pool_base pool_order }
    {
        Settings {
            order: LEAST_ORDER,
            limit: GREATEST_TRACE_ORDER,
            cpus: 1,
            pool_base,
            pool_order,
            grants: Grants::new(pool_base, pool_order),
            entries: EntryLines::new(alloc),
            windows: WindowLines::new(),
        }
    }

    /// `order S`
    #[tactic(auto, unfolding(crate::specs::Settings::with_order))]
    pub fn take_order(&mut self, words: &[&[u8]]) -> Result<(), Why>
        requires highest { self.old.limit ≡ greatest_trace_order }
        requires empty { self.old.entries ≡ [] }
        ensures taken { SetsTo (with_order self.old (texts words.now)) result self.old self.new }
        ensures entries { self.new.entries ≡ self.old.entries }
    {
        self.order = number_within(
            words,
            u64::from(LEAST_ORDER),
            u64::from(GREATEST_TRACE_ORDER),
        )? as u8;
        Ok(())
    }

    /// `limit S`
    #[tactic(auto, unfolding(crate::specs::Settings::with_limit))]
    pub fn take_limit(&mut self, words: &[&[u8]]) -> Result<(), Why>
        ensures taken { SetsTo (with_limit self.old (texts words.now)) result self.old self.new }
        ensures entries { self.new.entries ≡ self.old.entries }
    {
        self.limit = number_within(
            words,
            u64::from(self.order),
            u64::from(GREATEST_TRACE_ORDER),
        )? as u8;
        Ok(())
    }

    /// `cpus N`
    #[tactic(auto, unfolding(crate::specs::Settings::with_cpus))]
    pub fn take_cpus(&mut self, words: &[&[u8]]) -> Result<(), Why>
        ensures taken { SetsTo (with_cpus self.old (texts words.now)) result self.old self.new }
        ensures entries { self.new.entries ≡ self.old.entries }
    {
        self.cpus = number_within(words, 1, u64::from(MOST_PROCESSORS))? as u32;
        Ok(())
    }

    /// `pool BASE ORDER`
    #[tactic(auto, unfolding(crate::specs::Settings::with_pool))]
    pub fn take_pool(&mut self, words: &[&[u8]]) -> Result<(), Why>
        requires { self.old.entries ≡ [] }
        ensures taken { SetsTo (with_pool self.old (texts words.now)) result self.old self.new }
        ensures entries { self.new.entries ≡ self.old.entries }
    {
        let range = pool_named(words)?;
        self.pool_base = range.base;
        self.pool_order = range.order;
        self.grants = Grants::new(range.base, range.order);
        Ok(())
    }

    /// Adds a grant.
    #[tactic(auto, unfolding(frame_grants::specs::Grants::with_grant))]
    pub fn add_grant(&mut self, grant: Grant) -> Result<(), Why>
        requires { self.old.entries ≡ [] }
        ensures taken { SetsTo
            (with_checked_grant self.old grant (add_refusal self.old.granted grant))
            result
            self.old
            self.new }
        ensures entries { self.new.entries ≡ self.old.entries }
    {
        if let Err(error) = self.grants.add(grant) {
            return Err(grant_why(error));
        }
        Ok(())
    }

    /// The entry that a line names.
    #[tactic(auto, unfolding(crate::specs::Entries::entry_named))]
    fn entry_named(&self, words: &[&[u8]]) -> Result<ImageEntry, Why>
        ensures entry { result ≡ entry_named self.now (texts words.now) }
        ensures opening { IfOk
            result
            (λ entry. AreOpeningEntries
            self.now.order
            self.now.granted.grants
            (self.now.entries ++ entry ∷ [])) }
    {
        if words.len() != 4 {
            return Err(Why::Count);
        }
        let index = number_at(words, 2)?;
        let layout = layout_named(word_at(words, 1)).ok_or(Why::Entry)?;
        if index >= u64::from(entry_count(self.order)) {
            return Err(Why::Entry);
        }
        if !is_above(self.entries.as_slice(), index) {
            return Err(Why::Entry);
        }
        let (dword0, dword1) = words_spelt(layout, word_at(words, 3)).ok_or(Why::Entry)?;
        if !is_stored(&self.grants, dword0, dword1) {
            return Err(Why::Entry);
        }
        Ok(ImageEntry {
            index: index as u32,
            dword0,
            dword1,
        })
    }

    /// `entry old INDEX DIGITS` or `entry new INDEX DIGITS`
    #[tactic(auto, unfolding(crate::specs::Entries::with_entry))]
    pub fn take_entry(&mut self, words: &[&[u8]]) -> Result<(), Stop>
        ensures { ReadsTo (with_entry self.old (texts words.now)) tt result self.old self.new }
    {
        let entry = self.entry_named(words)?;
        self.entries.push(entry)?;
        Ok(())
    }

    /// The window that a line names.
    #[tactic(auto, unfolding(crate::specs::Windows::window_named))]
    fn window_named(&self, words: &[&[u8]]) -> Result<Window, Why>
        ensures window { result ≡ window_named self.now (texts words.now) }
        ensures room { IfOk result (λ _. length self.now.windows < 4) }
        ensures possible { IfOk result IsWindow }
        ensures fresh { IfOk
            result
            (λ window. has_number self.now.windows window.liobn ≡ false) }
    {
        if words.len() != 4 {
            return Err(Why::Count);
        }
        let liobn = number_at(words, 1)?;
        let base = number_at(words, 2)?;
        let pages = number_at(words, 3)?;
        let window = Window::new(liobn, base, pages).ok_or(Why::Window)?;
        if self.windows.has_number(window.liobn()) {
            return Err(Why::Window);
        }
        if !self.windows.has_room() {
            return Err(Why::Window);
        }
        Ok(window)
    }

    /// `window LIOBN BASE PAGES`
    #[tactic(auto, unfolding(crate::specs::Windows::with_window))]
    pub fn take_window(&mut self, words: &[&[u8]]) -> Result<(), Why>
        ensures { SetsTo (with_window self.old (texts words.now)) result self.old self.new }
    {
        let window = self.window_named(words)?;
        self.windows.push(window);
        Ok(())
    }

    /// `begin`
    #[tactic(auto, unfolding(crate::specs::Settings::with_begin))]
    pub fn take_begin(&mut self, words: &[&[u8]]) -> Result<(), Why>
        ensures taken { SetsTo (with_begin self.old (texts words.now)) result self.old self.new }
        ensures room { OnOk result (self.new.order ≤ self.new.granted.pool_order) }
    {
        if words.len() != 1 {
            return Err(Why::Count);
        }
        if self.pool_order < self.order {
            return Err(Why::Small);
        }
        Ok(())
    }

    /// The binary logarithm of the size of the opening table in bytes.
    pub fn order(&self) -> u8
        ensures value { result ≡ self.now.order }
        ensures order { IsTraceOrder result }
    {
        self.order
    }

    /// The memory that is granted.
    pub fn grants(&self) -> &Grants
        ensures { result.now ≡ self.now.granted }
    {
        &self.grants
    }

    /// How many processors there are.
    pub fn cpus(&self) -> u32
        ensures number { result ≡ self.now.cpus }
        ensures some { 1 ≤ result }
    {
        self.cpus
    }

    /// The configuration that they make.
    pub fn into_config(self) -> Config
        requires { self.order ≤ self.granted.pool_order }
        ensures { result ≡ self }
    {
        let Settings {
            order,
            limit,
            cpus,
            pool_base,
            pool_order,
            grants,
            entries,
            windows,
        } = self;
        Config {
            order,
            limit,
            cpus,
            pool_base,
            pool_order,
            grants,
            entries,
            windows,
        }
    }
}
