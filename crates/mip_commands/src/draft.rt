/// What a schedule is made of: its seed, and how many events it has, 1 to 20,000.
#[derive(Clone, Copy)]
pub struct Draft {
    pub seed: [u8; 32],
    pub count: u32,
}
