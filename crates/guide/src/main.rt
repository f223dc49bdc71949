// Checks the worked cases of document 01 that are not marked (*), and more vectors, against the stored output: amounts, the
// index and schedules. What books say is in guide_books.
#![tactic(auto)]

mod amounts;
mod indexes;
mod passes;
mod schedules;

fn main() {
    amounts::all();
    indexes::all();
    schedules::all();
    passes::all();
}
