// What writers of lists share: a list written over the start of another, and its laws.
#![tactic(auto)]

ghost use Rattle.std.specs.Prelude.{◌≡◌};
ghost use Rattle.lists.specs.Over.{over};

// Values over the start of a list, as far as it goes.
pub fn put_over<T: Copy>(list: &mut [T], values: &[T])
    ensures { list.new ≡ over values.now list.old }
{
    // Each by itself: as many as both have are copied by a call of `memcpy`, and `copy_from_slice` also asks where in memory both lists lie, as each machine has it.
    for i in 0..values.len() {
        if i < list.len() {
            list[i] = values[i];
        }
    }
}
