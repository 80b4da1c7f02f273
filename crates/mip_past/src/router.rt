/// What a home agent advertises of itself: its preference, and for how many seconds.
#[derive(Clone, Copy)]
pub struct Router {
    pub preference: u16,
    pub life: u16,
}
