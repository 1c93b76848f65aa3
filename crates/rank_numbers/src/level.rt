/// A level of a nest.
#[derive(Drop)]
pub struct Level {
    /// Its keys, in ascending order.
    pub keys: Vec<u32>,
    /// The candidate, by number. None where this is the level of a whole graph.
    pub candidate: Option<u32>,
    /// The least value of the candidate's form over the keys' facts. 0 for a graph.
    pub low: i64,
    /// What the candidate weighs: the total of the graph within. 0 for a graph.
    pub weight: i128,
    /// The greatest value of the keys' forms, entered as 0 where a form is large; the total of a
    /// graph.
    pub greatest: i128,
}

/// What comes of the numbers of a nest.
#[derive(Drop)]
pub enum Numbered {
    /// The total, where no number is large.
    Total(i128),
    /// The levels of the nest, in the order in which they are made, up to the one to which the
    /// first large number belongs.
    Large(Vec<Level>),
}
