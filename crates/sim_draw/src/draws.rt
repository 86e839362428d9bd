//! The draws of one agent.
ghost use Rattle.std.specs.Prelude.{◌≡◌, ◌+◌, ◌<◌, ◌≤◌, ◌^◌, IfOk, OnErr};
ghost use Rattle.sqs_model.specs.Answers.{most_count};
ghost use Rattle.sqs_model.specs.Draw.{moved_on, next_word, uniform as the_uniform, chance as the_chance, drawn_between, drawn_group, drawn_time};
ghost use Rattle.sqs_model.specs.Valid.{AreWeighted, IsDistribution};

use crate::groups::group_at;
use crate::quantiles::time_at;
use rand_chacha::ChaCha20Rng;
use rand_core::SeedableRng;
use rand_core::utils::NextWord;
use sqs_model::{Distribution, WeightedGroup};
use std::alloc::{AllocError, Global};
use std::marker::Model;

/// The random words of one agent under a seed, and how many of them were taken. Contracts see it as
/// seed, agent and that number: nothing else that was drawn before has an effect.
#[derive(Drop)]
pub struct Draws {
    words: ChaCha20Rng,
    seed: u64,
    agent: u32,
    taken: u64,
}

impl Model for Draws {
    ghost use Rattle.std.specs.Prelude.{◌≡◌};
    ghost use Rattle.rand_chacha.specs.ChaCha.{key_of};
    ghost use Rattle.sqs_model.specs.Draw.{Draws, seed_bytes};

    ghost Value = { Draws };

    ghost view = { λ d. record { seed = d.seed; agent = d.agent; taken = d.taken } };

    ghost invariant = { λ d. d.words ≡ record { key = key_of (seed_bytes d.seed); stream = d.agent; word_pos = d.taken } };
}

impl Draws {
    /// The draws of an agent before the first word.
    pub fn new(seed: u64, agent: u32) -> Draws
        ensures { result ≡ record { seed = seed; agent = agent; taken = 0 } }
    {
        let mut key = [0; 32];
        key[..8].copy_from_slice(&seed.to_le_bytes());
        let mut words = ChaCha20Rng::from_seed(key);
        words.set_stream(u64::from(agent));
        Draws {
            words,
            seed,
            agent,
            taken: 0,
        }
    }

    /// The number of words that were taken.
    pub fn taken(&self) -> u64
        ensures { result ≡ self.now.taken }
    {
        self.taken
    }

    /// The next word, of 32 bits.
    #[tactic(auto, unfolding(sqs_model::specs::Draw::word))]
    pub fn word(&mut self) -> u32
        requires { self.old.taken ≤ most_count }
        ensures word { result ≡ next_word self.old }
        ensures after { self.new ≡ moved_on self.old }
    {
        let word = self.words.next_word();
        self.taken += 1;
        word
    }

    /// A number from `low` to `high`, both included. It always takes one word.
    #[tactic(auto, using(crate::proofs::Words::share_within))]
    pub fn uniform(&mut self, low: u64, high: u64) -> u64
        requires words { self.old.taken ≤ most_count }
        requires order { low ≤ high }
        requires span { high < low + 2 ^ 32 }
        ensures number { result ≡ the_uniform low high (next_word self.old) }
        ensures least { low ≤ result }
        ensures greatest { result ≤ high }
        ensures after { self.new ≡ moved_on self.old }
    {
        let span = high - low + 1;
        let word = self.word();
        low + ((u128::from(word) * u128::from(span)) >> 32) as u64
    }

    /// Whether an event with a chance of `permille` in a thousand occurs. It always takes one word.
    #[inline(always)]
    pub fn chance(&mut self, permille: u64) -> bool
        requires words { self.old.taken ≤ most_count }
        ensures event { result ≡ the_chance permille (next_word self.old) }
        ensures after { self.new ≡ moved_on self.old }
    {
        let word = self.word();
        (u64::from(word) * 1000) >> 32 < permille
    }

    /// A number from `low` to `high`, both included. If they are equal, it takes no word.
    pub fn between(&mut self, low: u64, high: u64) -> u64
        requires words { low < high → self.old.taken ≤ most_count }
        requires order { low ≤ high }
        requires span { high < low + 2 ^ 32 }
        ensures least { low ≤ result }
        ensures greatest { result ≤ high }
        ensures drawn { drawn_between low high self.old ≡ (result, self.new) }
    {
        if low < high {
            self.uniform(low, high)
        } else {
            low
        }
    }

    /// A time in milliseconds by a distribution. It always takes one word.
    pub fn time(&mut self, distribution: &Distribution) -> u64
        requires words { self.old.taken ≤ most_count }
        requires range { IsDistribution distribution.now }
        ensures drawn { drawn_time distribution.now self.old ≡ (result, self.new) }
        ensures greatest { result ≤ 86400000 }
    {
        match distribution {
            Distribution::Uniform(low, high) => self.uniform(*low, *high),
            Distribution::Quantiles(quantiles) => {
                let word = self.word();
                time_at(quantiles.as_slice(), word)
            }
        }
    }

    // Gives the last word back, as if it had not been taken.
    fn give_back(&mut self)
        requires { 1 ≤ self.old.taken }
        ensures { moved_on self.new ≡ self.old }
    {
        self.taken -= 1;
        self.words.set_word_pos(u128::from(self.taken));
    }

    /// A copy of one of some groups, each as likely as its weight says. It takes one word, but none
    /// if the copy lacks memory.
    pub fn group(&mut self, alloc: Global, groups: &[WeightedGroup]) -> Result<Vec<u8>, AllocError>
        requires words { self.old.taken ≤ most_count }
        requires range { AreWeighted groups.now }
        ensures drawn { IfOk result (λ g. drawn_group groups.now self.old ≡ (g.items, self.new)) }
        ensures unchanged { OnErr result (self.new ≡ self.old) }
    {
        let word = self.word();
        let group = group_at(groups, word).to_vec(alloc);
        if group.is_err() {
            self.give_back();
        }
        group
    }
}
