// The part of a rule or of a work slice that holds a range of addresses.
#![tactic(auto)]

ghost use Rattle.std.specs.Prelude.{◌≡◌, ◌↔◌, ◌+◌, ◌≤◌, length, take, drop, IfSome, IfOk, IfErr, IsSome};
ghost use Rattle.show.specs.Ranges.{Shows, IsInNeither, number};

#[derive(Clone, Copy, PartialEq, Eq, Debug)]
pub enum Refusal {
    // the range lies in neither slice
    InNeither,
}

impl Refusal {
    // The number that the refused call hands back. It has a name: `u8::from` would not say what number it is.
    pub fn number(self) -> u8
        ensures { result ≡ number self }
    {
        match self {
            Refusal::InNeither => 5,
        }
    }
}

// The slice that a part is of.
#[derive(Clone, Copy, PartialEq, Eq, Debug)]
pub enum Source {
    Rule,
    Work,
}

// A part of a lent slice, with its place in that slice.
#[derive(Clone, Copy, PartialEq, Eq, Debug)]
pub struct Part<'a> {
    pub source: Source,
    pub offset: u64,
    pub bytes: &'a [u8],
}

// The part of the rule or of the work that holds `len` addresses from `address` on. The rule's addresses begin at 0,
// and the work's follow.
pub fn show<'a>(rule: &'a [u8], work: &'a [u8], address: u64, len: u64) -> Result<Part<'a>, Refusal>
    ensures part { IfOk result (λ p. Shows p.source rule.now work.now address len p.offset p.bytes.now) }
    ensures none { IfErr result (λ e. (number e ≡ 5) × IsInNeither rule.now work.now address len) }
{
    // Not by or_else, with which it did not prove.
    if let Some(part) = cut(Source::Rule, rule, address, len) {
        return Ok(part);
    }
    address
        .checked_sub(rule.len() as u64)
        .and_then(|offset| cut(Source::Work, work, offset, len))
        .ok_or(Refusal::InNeither)
}

// The part of a slice that has so many bytes from an offset on, if the slice has them.
fn cut(source: Source, slice: &[u8], offset: u64, len: u64) -> Option<Part<'_>>
    ensures fits { IsSome result ↔ (offset + len ≤ length slice.now) }
    ensures part { IfSome result (λ p. (p.source ≡ source) × (p.offset ≡ offset) × (p.bytes.now ≡ take len (drop offset slice.now))) }
{
    let end = offset.checked_add(len)?;
    let bytes = slice.get(offset as usize..end as usize)?;
    Some(Part {
        source,
        offset,
        bytes,
    })
}
