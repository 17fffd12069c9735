// Parts of the lists that are given or lent: so many places from the first one on; nothing where there are not so many. (Two of them, as std has
// `get` and `get_mut`.)

pub fn part<T>(list: &[T], len: usize) -> &[T] {
    list.get(..len).unwrap_or_default()
}

pub fn part_mut<T>(list: &mut [T], len: usize) -> &mut [T] {
    list.get_mut(..len).unwrap_or_default()
}
