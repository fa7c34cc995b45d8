// Both tables of a generator, lent to read.
#[derive(Clone, Copy)]
pub struct Tables<'a> {
    pub steps: &'a [u16],
    pub firsts: &'a [u16],
}
