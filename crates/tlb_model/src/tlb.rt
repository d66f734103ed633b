//! The sets of a processor's translation lookaside buffer, one of which is chosen by the page's
//! index.
ghost use Rattle.std.specs.Prelude.{◌≡◌, None};
ghost use Rattle.tlb_model.specs.Cache.{cached_line, empty_cache, set_of, without_page, put_last};
ghost use Rattle.tlb_model.specs.Sets.{with_set};
ghost use Rattle.tlb_model.specs.Cache as sets;

use crate::line_set::LineSet;
use entry_model::Line;
use power_addr::Page;
use std::marker::Model;

const SETS: usize = 32;

/// The cached translations of one processor: 32 sets of at most four lines. The set of a page is
/// its index modulo 32.
#[derive(Drop)]
pub struct Tlb {
    sets: [LineSet; SETS],
}

impl Model for Tlb {
    ghost use Rattle.std.specs.Prelude.{List};
    ghost use Rattle.entry_model.specs.declared.line.Line.{Line};
    ghost use Rattle.tlb_model.specs.Sets.{IsCache};

    ghost Value = { List (List Line) };

    ghost view = { λ tlb. tlb.sets };

    ghost invariant = { λ tlb. IsCache tlb.sets };
}

impl Tlb {
    /// A buffer without a line.
    pub fn new() -> Tlb
        ensures { result ≡ empty_cache }
    {
        Tlb { sets: no_lines() }
    }

    /// The line of the page; `None` exactly if it has none.
    #[tactic(auto, unfolding(crate::specs::Cache::cached_line))]
    pub fn find(&self, page: &Page) -> Option<Line>
        ensures { result ≡ cached_line self.now page.now }
    {
        self.sets[set_number(page)].find(page)
    }

    /// Puts a line of a page that has none last in its set. Where the set has four lines, the one
    /// that was filled first goes.
    pub fn fill(&mut self, line: Line)
        requires { cached_line self.old line.page ≡ None }
        ensures { self.new
            ≡ with_set line.page (put_last line (set_of self.old line.page)) self.old }
    {
        let number = set_number(&line.page);
        self.sets[number].fill(line);
    }

    /// Takes out the line of the page, if there is one; the others keep their order.
    pub fn drop_line(&mut self, page: &Page)
        ensures { self.new
            ≡ with_set page.now (without_page page.now (set_of self.old page.now)) self.old }
    {
        self.sets[set_number(page)].drop_line(page);
    }

    /// Takes out all lines.
    pub fn clear(&mut self)
        ensures { self.new ≡ empty_cache }
    {
        self.sets = no_lines();
    }
}

fn no_lines() -> [LineSet; SETS]
    ensures { result ≡ empty_cache }
{
    std::array::from_fn(|_| LineSet::new())
}

fn set_number(page: &Page) -> usize
    ensures { result ≡ sets.set_number page.now }
{
    (page.index() % SETS as u64) as usize
}
