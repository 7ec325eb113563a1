//! The line of what usual rules would walk.
ghost use Rattle.std.specs.Prelude.{◌≡◌, ◌≤◌, ◌++◌, IfOk};
ghost use Rattle.wp_sheets.specs.Rules.{rule_words, rules_line};

use std::alloc::Global;
use std::io::Write;
use wp_model::Memory;

fn print_rule(text: &mut Vec<u8>, walked: u64, shortest: u64) -> Result<(), Memory>
    requires { shortest ≤ walked }
    ensures { IfOk result (λ _. text.new.items ≡ text.old.items ++ rule_words walked shortest) }
{
    let surplus = walked - shortest;
    write!(text, " {walked} {surplus}").or(Err(Memory))
}

/// Adds the line of what three usual rules would walk past a batch's picks, with its line feed: for S-shape, return and
/// largest gap each the length, and how much longer that is than a shortest tour, which has the last length. An `Err`
/// comes from a want of memory alone.
pub fn append_rules(
    text: &mut Vec<u8>,
    shape: u64,
    back: u64,
    gap: u64,
    length: u64,
) -> Result<(), Memory>
    requires shape { length ≤ shape }
    requires back { length ≤ back }
    requires gap { length ≤ gap }
    ensures { IfOk result (λ _. text.new.items
        ≡ text.old.items ++ rules_line shape back gap length) }
{
    text.extend_from_slice(b"rules s-shape")?;
    print_rule(text, shape, length)?;
    text.extend_from_slice(b" return")?;
    print_rule(text, back, length)?;
    text.extend_from_slice(b" largest-gap")?;
    print_rule(text, gap, length)?;
    Ok(text.push(b'\n')?)
}

/// The line of what three usual rules would walk, as `append_rules` adds it.
pub fn print_rules(
    alloc: Global,
    shape: u64,
    back: u64,
    gap: u64,
    length: u64,
) -> Result<Vec<u8>, Memory>
    requires shape { length ≤ shape }
    requires back { length ≤ back }
    requires gap { length ≤ gap }
    ensures { IfOk result (λ line. line.items ≡ rules_line shape back gap length) }
{
    let mut line = Vec::new(alloc);
    append_rules(&mut line, shape, back, gap, length)?;
    Ok(line)
}
