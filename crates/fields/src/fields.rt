//! The fields of a line, cut at each tab.
ghost use Rattle.std.specs.Prelude.{◌≡◌, ◌+◌, length, IfSome, count_by, position};
ghost use Rattle.std.specs.List.{slice_get};
ghost use Rattle.std.specs.Option.{option_map};
ghost use Rattle.fields.specs.Fields.{PartOf, is_tab, parts};

// The index of the first tab, if there is one.
fn first_tab(line: &[u8]) -> Option<usize>
    ensures { result ≡ position is_tab line.now }
{
    line.iter().position(|b| *b == b'\t')
}

/// Field `k` of a line, counted from 0, or `None` where the line has no such field.
///
/// A field may be empty: an empty line has one such field, and so has the place before a first tab,
/// between two tabs and after a last one. The field lies within the line.
pub fn field(line: &[u8], k: usize) -> Option<&[u8]>
    ensures bytes { option_map (λ x. x.now) result ≡ slice_get (parts line.now) k }
    ensures lent { IfSome result (PartOf line.entry) }
{
    // cut by hand: what `split` yields has the right bytes, but no contract says where in the line it lies
    let mut start = 0;
    for _ in 0..k {
        start += first_tab(&line[start..])? + 1;
    }
    let rest = &line[start..];
    let end = first_tab(rest).unwrap_or(rest.len());
    Some(&rest[..end])
}

/// How many fields a line has: one more than there are tabs.
pub fn field_count(line: &[u8]) -> usize
    ensures parts { result ≡ length (parts line.now) }
    ensures tabs { result ≡ count_by is_tab line.now + 1 }
{
    line.iter().filter(|b| **b == b'\t').count() + 1
}
