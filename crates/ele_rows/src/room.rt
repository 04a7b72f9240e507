//! An insertion into a vector with spare capacity, which can't fail.
//! A contract sees a vector as its items, its length and its capacity.
ghost use Rattle.std.specs.Prelude.{◌≡◌, ◌<◌, ◌≤◌, vec_len, vec_capacity};
ghost use Rattle.std.specs.List.{insert};

/// Inserts an item at a place, if the vector has spare capacity.
pub fn put_at<T>(items: &mut Vec<T>, at: usize, item: T)
    requires place { at ≤ vec_len items.old }
    requires room { vec_len items.old < vec_capacity items.old }
    ensures { items.new.items ≡ insert items.old.items at item }
{
    match items.insert(at, item) {
        Ok(()) => {}
        Err(_back) => unreachable!(),
    }
}
