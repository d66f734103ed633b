//! One set of cached translations: where it is full, the line that was filled first is pushed out.
ghost use Rattle.std.specs.Prelude.{◌≡◌, [], None};
ghost use Rattle.tlb_model.specs.Cache.{line_of_page, without_page, put_last};
ghost use Rattle.power_addr.specs.Pages as pages;

use arrayvec::ArrayVec;
use entry_model::Line;
use power_addr::Page;
use std::marker::Model;

/// At most four lines, each of another page, in the order of filling.
#[derive(Drop)]
pub struct LineSet {
    lines: ArrayVec<Line, 4>,
}

impl Model for LineSet {
    ghost use Rattle.std.specs.Prelude.{List};
    ghost use Rattle.entry_model.specs.declared.line.Line.{Line};
    ghost use Rattle.tlb_model.specs.Sets.{IsLineSet};

    ghost Value = { List Line };

    ghost view = { λ s. s.lines.items };

    ghost invariant = { λ s. IsLineSet s.lines.items };
}

impl LineSet {
    pub fn new() -> LineSet
        ensures { result ≡ [] }
    {
        LineSet {
            lines: ArrayVec::new(),
        }
    }

    /// The line of the page.
    pub fn find(&self, page: &Page) -> Option<Line>
        ensures { result ≡ line_of_page page.now self.now }
    {
        self.lines
            .iter()
            .copied()
            .find(|line| same_page(&line.page, page))
    }

    /// Puts a line last; where there are four already, the first goes.
    pub fn fill(&mut self, line: Line)
        requires { line_of_page line.page self.old ≡ None }
        ensures { self.new ≡ put_last line self.old }
    {
        if self.lines.is_full() {
            self.lines.remove(0);
        }
        self.lines.push(line);
    }

    /// Takes out the line of the page, if there is one.
    pub fn drop_line(&mut self, page: &Page)
        ensures { self.new ≡ without_page page.now self.old }
    {
        self.lines.retain(|line| !same_page(&line.page, page));
    }
}

#[tactic(auto, unfolding(power_addr::specs::Pages::same_page))]
fn same_page(left: &Page, right: &Page) -> bool
    ensures { result ≡ pages.same_page left.now right.now }
{
    left.one_tb() == right.one_tb()
        && left.vsid() == right.vsid()
        && left.shift() == right.shift()
        && left.index() == right.index()
}
