// Parts of slices, at any numbers, so that no caller owes a proof: where they do not lie within the slice the part is empty or the whole.

// The elements from one index up to another.
pub(crate) fn part<T>(all: &[T], from: usize, to: usize) -> &[T] {
    all.get(from..to).unwrap_or(&[])
}

// The first n elements.
pub(crate) fn front<T>(room: &mut [T], n: usize) -> &mut [T] {
    let n = n.min(room.len());
    &mut room[..n]
}
