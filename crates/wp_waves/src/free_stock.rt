//! The free units of each article, from which orders take what they want, one after the other.
ghost use Rattle.std.specs.Prelude.{◌≡◌, ◌+◌, ◌<◌, ◌≤◌, ◌^◌, ℕ, List, Some, IfNone, IfSome, length, slice_get};
ghost use Rattle.std.specs.List.{All};
ghost use Rattle.wp_model.specs.Opening.{line_units};
ghost use Rattle.wp_model.specs.declared.row.Line.{Line as LineData};
ghost use Rattle.wp_waves.specs.Shortages.{HaveTaken, IsFirstAmong, IsShortageAt};
ghost use Rattle.wp_waves.specs.Turns.{lines_demand, shortage_in, units_free};

use wp_model::Line;

/// How many units of each article are free.
#[derive(Drop)]
pub struct FreeStock {
    pub(crate) units: Vec<u64>,
}

/// An article of which an order wants more than is free in its turn: its number, what the order wants of it, and what
/// is free.
#[derive(Clone, Copy)]
pub struct Shortage {
    pub article: u32,
    pub wanted: u64,
    pub free: u64,
}

// How many units of an article lines want.
fn lines_demand(lines: &[Line], article: u32) -> u64
    requires { line_units lines.now < 2 ^ 32 }
    ensures { result ≡ lines_demand lines.now article }
{
    let mut units = 0;
    for line in lines {
        if line.article == article {
            units += u64::from(line.quantity);
        }
    }
    units
}

// The one with the smaller article.
fn earlier(first: Option<Shortage>, other: Option<Shortage>) -> Option<Shortage>
    ensures { (lines : List LineData) (free : ℕ → ℕ) (count : ℕ) (line : LineData)
        → slice_get lines count ≡ Some line
        → IsFirstAmong lines free count first → IsShortageAt lines free line.article other
        → IsFirstAmong lines free (count + 1) result }
{
    match (first, other) {
        (Some(one), Some(two)) if one.article <= two.article => Some(one),
        (Some(one), None) => Some(one),
        (_, other) => other,
    }
}

impl FreeStock {
    /// So many free units of each article, in the order of the stock file.
    pub fn of(units: Vec<u64>) -> FreeStock
        ensures { result.units ≡ units }
    {
        FreeStock { units }
    }

    // The numbers of an article of which lines want more than is free, none where there is enough of it.
    fn shortage_at(&self, lines: &[Line], article: u32) -> Option<Shortage>
        requires within { article < length self.now.units.items }
        requires small { line_units lines.now < 2 ^ 32 }
        ensures { IsShortageAt lines.now (units_free self.now) article result }
    {
        let wanted = lines_demand(lines, article);
        let free = self.units[article as usize];
        if free < wanted {
            Some(Shortage {
                article,
                wanted,
                free,
            })
        } else {
            None
        }
    }

    // The first article, in the order of the stock file, of which lines want more than is free.
    fn first_shortage(&self, lines: &[Line]) -> Option<Shortage>
        requires within { All (λ (line : LineData). line.article < length self.now.units.items)
            lines.now }
        requires small { line_units lines.now < 2 ^ 32 }
        ensures { result ≡ shortage_in (length self.now.units.items) (lines_demand lines.now)
            (units_free self.now) }
    {
        let mut first = None;
        for line in lines {
            first = earlier(first, self.shortage_at(lines, line.article));
        }
        first
    }

    // Takes what lines want.
    fn take(&mut self, lines: &[Line])
        requires within { All (λ (line : LineData). line.article < length self.old.units.items)
            lines.now }
        requires covered { (article : ℕ) → lines_demand lines.now article
            ≤ units_free self.old article }
        ensures { HaveTaken lines.now self.old self.new }
    {
        for line in lines {
            self.units[line.article as usize] -= u64::from(line.quantity);
        }
    }

    /// What an order of these lines is short of: the first article, in the order of the stock file, of which it wants
    /// more than is free. None comes exactly where free stock covers it, and then it takes what it wants; else nothing
    /// changes.
    pub(crate) fn serve(&mut self, lines: &[Line]) -> Option<Shortage>
        requires within { All (λ (line : LineData). line.article < length self.old.units.items)
            lines.now }
        requires small { line_units lines.now < 2 ^ 32 }
        ensures short { result ≡ shortage_in (length self.old.units.items) (lines_demand lines.now)
            (units_free self.old) }
        ensures served { IfNone result (HaveTaken lines.now self.old self.new) }
        ensures same { IfSome result (λ short. self.new ≡ self.old) }
    {
        match self.first_shortage(lines) {
            Some(short) => Some(short),
            None => {
                self.take(lines);
                None
            }
        }
    }
}
