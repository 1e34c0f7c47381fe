// What the door answers. (A type may not stand beside a function whose name differs only by case.)

// The two ends of an interval, as doubles.
#[derive(Drop)]
pub struct Ends {
    pub low: f64,
    pub high: f64,
}
