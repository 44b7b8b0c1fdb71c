// A plan as it is printed.
ghost use Rattle.std.specs.Prelude.{◌≡◌, ◌≤◌};
ghost use Rattle.spec.specs.Text.{plan_line, plan_text};
ghost use Rattle.steplines.specs.Puts.{Puts};
ghost use Rattle.text.specs.Lists.{printed_from};

use crate::figures;
use spec::Prices;
use steplines::digits::Text;
use steplines::listed::Listed;

// Stays: `&self, text: &mut Text`: what is printed, and where to; a plan is copied, which nothing that holds a text to write in can be.

/// What is printed of a plan: what pricing handed out of its steps, the prices, the flags of the sliced indices, and improvement's counts.
#[derive(Clone, Copy)]
pub struct Printout<'a> {
    pub leaf_count: usize,
    pub listed: Listed<'a>,
    pub prices: Prices,
    pub flags: &'a [u8],
    pub rebuilt: u64,
    pub tried: u64,
    ghost few_leaves: { leaf_count ≤ 128 },
}

// Stays: std has no From of usize for u64.
// Puts the first line.
fn put_head(text: &mut Text, leaves: usize, indices: usize)
    requires { text.old.len ≡ 0 }
    ensures written { Puts text.old (plan_line leaves indices) text.new }
    ensures short { text.new.len ≤ 47 }
{
    text.put_word(b"plan");
    text.put_number(leaves as u64);
    text.put_number(indices as u64);
    text.put_word(b"\n");
}

impl<'a> Printout<'a> {
    /// Puts the lines of the plan into an empty text.
    pub fn put(&self, text: &mut Text)
        requires { text.old.len ≡ 0 }
        ensures written { Puts text.old (plan_text (printed_from self.now.leaf_count self.now.listed.index_count self.now.listed.width self.now.prices self.now.listed.steps.now self.now.listed.sets.now self.now.flags.now self.now.rebuilt self.now.tried)) text.new }
        ensures short { text.new.len ≤ 131072 }
    {
        let indices = self.listed.index_count;
        put_head(text, self.leaf_count, indices);
        self.listed
            .put_steps(text, self.leaf_count.saturating_sub(1));
        figures::put_total(text, self.prices.total);
        figures::put_widest(text, self.prices.widest);
        figures::put_slices(text, self.flags, indices);
        text.put_line(b"bits", u64::from(self.prices.slice_bits));
        text.put_line(b"improved", self.rebuilt);
        text.put_line(b"splits", self.tried);
    }
}
