// One or two elements of a slice, lent by their places.
ghost use Rattle.std.specs.Prelude.{◌↔◌, ◌≢◌, ◌<◌, ◌≡◌, IsSome, IfSome, length, slice_index_or};
ghost use Rattle.std.specs.Borrow.{sem};
ghost use Rattle.replay.specs.Lending.{LendsAt, LendsBoth};

// The element at a place, if there is one. The library's `get_mut` leaves no element known afterwards.
pub(crate) fn at<T>(items: &mut [T], i: usize) -> Option<&mut T>
    ensures* writes_back { sem 𝓛 (LendsAt T.row items.entry i result) }
    ensures inside { IsSome result ↔ (i < length items.old) }
    ensures item { IfSome result (λ x. x.now ≡ slice_index_or items.old i x.now) }
{
    if i < items.len() {
        Some(&mut items[i])
    } else {
        None
    }
}

// The elements at two places. It answers no Option: the check follows no pair back to its slice where a
// `None` is answered beside it.
pub(crate) fn both<T>(items: &mut [T], i: usize, j: usize) -> (&mut T, &mut T)
    requires { (i < length items.old) × ((j < length items.old) × (i ≢ j)) }
    ensures* writes_back { sem 𝓛 (LendsBoth T.row items.entry i j result) }
    ensures first { result.0.now ≡ slice_index_or items.old i result.0.now }
    ensures second { result.1.now ≡ slice_index_or items.old j result.1.now }
{
    if i < j {
        let (front, back) = items.split_at_mut(j);
        (&mut front[i], &mut back[0])
    } else {
        let (front, back) = items.split_at_mut(i);
        (&mut back[0], &mut front[j])
    }
}
