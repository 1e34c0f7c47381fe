// What C is given, by value: include/valvepigeon.h declares the same structs. `refused` is 0 or the paper's number; in a
// refusal every field past `place` is 0. `exact` is 1 or 0.

// A formula's fields, in and out. `kind` is the code of the record's kind; p is the count of a polynomial, odd and even ones
// included, the numerator's count or the depth, q the divisor's count; `words` are the coefficients in stored order.
#[repr(C)]
#[derive(Drop)]
pub struct Fields {
    pub kind: u16,
    pub number: u16,
    pub lo: i32,
    pub hi: i32,
    pub p: u16,
    pub q: u16,
    pub mode: u16,
    pub words: [i32; 32],
}

#[repr(C)]
#[derive(Drop)]
pub struct CountedFormulas {
    pub refused: u32,
    pub place: u64,
    pub count: u16,
}

#[repr(C)]
#[derive(Drop)]
pub struct FoundFields {
    pub refused: u32,
    pub place: u64,
    pub fields: Fields,
}

#[repr(C)]
#[derive(Drop)]
pub struct WorkedWord {
    pub refused: u32,
    pub place: u64,
    pub word: i32,
    pub steps: u16,
    pub exact: u16,
}

#[repr(C)]
#[derive(Drop)]
pub struct ShownValue {
    pub refused: u32,
    pub place: u64,
    pub value: f64,
    pub steps: u16,
    pub exact: u16,
}

#[repr(C)]
#[derive(Drop)]
pub struct IntervalEnds {
    pub refused: u32,
    pub place: u64,
    pub low: f64,
    pub high: f64,
}

#[repr(C)]
#[derive(Drop)]
pub struct WrittenLength {
    pub refused: u32,
    pub place: u64,
    pub length: u64,
}
