// What the desk answers: an answer as a double, with the steps beside it and whether it is exact.
#[derive(Drop)]
pub struct Shown {
    pub value: f64,
    pub steps: u16,
    pub exact: bool,
}
