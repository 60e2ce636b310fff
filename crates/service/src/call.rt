// What each call brings, with its answer once it is made.
use machine::outcome::{Entry, Report};
use refusal::Refusal;

#[derive(Drop)]
pub struct Load {
    pub text: Vec<u8>,
    pub answer: Option<Result<(u8, u16, u32), Refusal>>,
}

#[derive(Drop)]
pub struct Offer {
    pub text: Vec<u8>,
    pub memory: Vec<u64>,
    pub answer: Option<Result<u32, Refusal>>,
}

#[derive(Drop)]
pub struct Place<P> {
    pub placer: P,
    pub registers: u64,
    pub memory: Vec<u64>,
    pub answer: Option<Result<u32, Refusal>>,
}

#[derive(Drop)]
pub struct Run<V, H, F> {
    pub budget: u32,
    pub args: Vec<V>,
    pub host: H,
    pub frame: F,
    pub list: Vec<Entry<V>>,
    pub answer: Option<Result<Report<V>, Refusal>>,
}

#[derive(Drop)]
pub struct Write {
    pub buffer: Vec<u8>,
    pub at: usize,
    pub answer: Option<Result<usize, Refusal>>,
}

#[derive(Drop)]
pub enum Call<V, H, F, P> {
    Load(Load),
    Offer(Offer),
    Place(Place<P>),
    Run(Run<V, H, F>),
    Write(Write),
}
