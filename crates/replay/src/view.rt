// A plane as the library is given one: samples, lent by `&` or by `&mut`, and their width, height, stride and origin.

#[derive(Drop)]
pub struct View<T> {
    pub samples: T,
    pub width: usize,
    pub height: usize,
    pub stride: usize,
    pub origin: usize,
}
