// What is lent to the evaluation of a cell.
ghost use Rattle.std.specs.Prelude.{◌≡◌, ◌<◌, ◌≤◌};
ghost use Rattle.value.specs.Limits.{most_tokens, most_open, most_fields};
ghost use Rattle.token.specs.Kind.{level_of};
ghost use Rattle.cell_meaning.specs.Links.{word_in};
ghost use Rattle.cell_meaning.specs.Promises.Leaves.{leaf_word};
ghost use Rattle.cell_operands.specs.Promises.Scene.{SceneLent, SceneReady, deeper, table};

use crate::Site;
use crate::table::{leaf_word, link_at, place_at, word_at};
use std::marker::Model;
use value::limits::LEAF_WORDS;

// The leaf table, the word table, the sizes of the grid, the coordinates of the cell and the grid; the numbers of the cell's evaluation; and how many
// loops are open.
#[derive(Drop)]
pub struct Scene<'a> {
    pub leaves: &'a [u32; LEAF_WORDS],
    pub words: &'a [u32],
    pub sizes: &'a [u32],
    pub point: &'a [u32],
    pub grid: &'a [i32],
    pub site: Site,
    pub depth: usize,
}

impl<'a> Model for Scene<'a> {
    ghost Value = { SceneLent };

    ghost view = { λ s. record { leaves = s.leaves.now; words = s.words.now; sizes = s.sizes.now; point = s.point.now; grid = s.grid.now; site = s.site; depth = s.depth } };

    ghost invariant = { λ s. SceneReady (record { leaves = s.leaves.now; words = s.words.now; sizes = s.sizes.now; point = s.point.now; grid = s.grid.now; site = s.site; depth = s.depth }) };
}

impl<'a> Scene<'a> {
    // The number of tokens.
    #[inline(always)]
    pub fn tokens(&self) -> usize
        ensures is { result ≡ self.now.site.tokens }
        ensures few { result ≤ most_tokens }
    {
        self.site.tokens
    }

    // The number of loops that are open.
    #[inline(always)]
    pub fn depth(&self) -> usize
        ensures is { result ≡ self.now.depth }
        ensures few { result ≤ most_open }
    {
        self.depth
    }

    // The same with one more loop open.
    pub fn deeper(&self) -> Scene<'a>
        requires { self.now.depth < most_open }
        ensures { result ≡ deeper self.now }
    {
        Scene {
            leaves: self.leaves,
            words: self.words,
            sizes: self.sizes,
            point: self.point,
            grid: self.grid,
            site: self.site,
            depth: self.depth + 1,
        }
    }

    // Word w of the token at a position.
    #[inline(always)]
    pub fn word(&self, w: usize, at: usize) -> u32
        requires { w < 4 }
        ensures { result ≡ word_in self.now.words self.now.site.tokens w at }
    {
        word_at(self.words, self.site.tokens, w, at)
    }

    // The kind of the token at a position.
    #[inline(always)]
    pub fn kind(&self, at: usize) -> u32
        ensures is { result ≡ (table self.now).kind at }
        ensures few { self.now.site.tokens ≤ most_tokens }
    {
        word_at(self.words, self.site.tokens, 0, at)
    }

    // The place of the first byte of the token at a position.
    #[inline(always)]
    pub fn place(&self, at: usize) -> u32
        ensures { result ≡ (table self.now).place at }
    {
        place_at(self.words, self.site.tokens, at)
    }

    // Where the link in word 2 of the token at a position leads.
    #[inline(always)]
    pub fn inner(&self, at: usize) -> usize
        ensures { result ≡ (table self.now).inner at }
    {
        link_at(self.words, self.site.tokens, 2, at)
    }

    // Where the link in word 3 of the token at a position leads.
    #[inline(always)]
    pub fn past(&self, at: usize) -> usize
        ensures { result ≡ (table self.now).past at }
    {
        link_at(self.words, self.site.tokens, 3, at)
    }

    // Word k of what the leaf table notes at a position.
    #[inline(always)]
    pub fn noted_word(&self, at: usize, k: usize) -> u32
        requires { (at ≤ self.now.site.tokens) × (k < most_fields) }
        ensures { result ≡ leaf_word self.now.leaves at k }
    {
        leaf_word(self.leaves, at, k)
    }

    // The level of the operator at a position; 0, where there is none.
    #[inline(always)]
    pub fn level(&self, at: usize) -> u32
        requires { at ≤ self.now.site.tokens }
        ensures is { result ≡ level_of ((table self.now).kind at) }
        ensures within { 1 ≤ result → at < self.now.site.tokens }
        ensures few { self.now.site.tokens ≤ most_tokens }
    {
        leaf_word(self.leaves, at, 3)
    }

    // The kind of the operator at a position.
    #[inline(always)]
    pub fn operator(&self, at: usize) -> u32
        requires { (at ≤ self.now.site.tokens) × (1 ≤ level_of ((table self.now).kind at)) }
        ensures { result ≡ (table self.now).kind at }
    {
        leaf_word(self.leaves, at, 1)
    }
}
