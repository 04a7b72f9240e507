//! The removal of an item from a vector. A contract sees the vector as the list of its items.
ghost use Rattle.std.specs.Prelude.{◌≡◌, position};
ghost use Rattle.ele_lists.specs.Lists.{remove_first};

/// Removes the first item that is equal, if there is one. The others keep their order.
#[tactic(auto, using(ele_lists::proofs::Places::first_places))]
pub fn take_out<T: PartialEq + Copy>(items: &mut Vec<T>, item: &T)
    ensures { items.new.items ≡ remove_first (λ x. T.eq x item.now) items.old.items }
{
    if let Some(place) = place_in(items, item) {
        let _item = items.remove(place);
    }
}

// The place of the first item that is equal.
fn place_in<T: PartialEq>(items: &[T], item: &T) -> Option<usize>
    ensures { result ≡ position (λ x. T.eq x item.now) items.now }
{
    items.iter().position(|x| x == item)
}
