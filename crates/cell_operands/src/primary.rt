// Primaries that have no expression inside them, and elements of array constants.
ghost use Rattle.std.specs.Prelude.{◌≡◌, ◌+◌, ◌<◌, ◌≤◌};
ghost use Rattle.cell_meaning.specs.Evaluation.{element_at};
ghost use Rattle.cell_meaning.specs.Promises.Stands.{array_in};
ghost use Rattle.cell_operands.specs.Promises.Scene.{In, table};
ghost use Rattle.cell_operands.specs.Promises.Working.{told_of, short, EvalsName, EvalsPlain, Leaf};

use crate::Evaluated;
use crate::neighbour::{field_of, front_value};
use crate::operators::is_unary;
use crate::scene::Scene;
use crate::table::{link_at, place_at, word_at};
use program::reply::{Reason, Refusal};
use token::kind;
use value::Value;
use value::limits::{MOST_NAMES, MOST_OPEN};

impl Scene<'_> {
    // The element with a given index of the array constant whose name is at a position, before a `[`; fault 32 if there is none.
    pub fn element(&self, at: usize, i: Value, next: usize) -> Result<Evaluated, Refusal>
        requires { at < self.now.site.tokens }
        ensures { result ≡ told_of (element_at ((table self.now).place (at + 1)) (array_in (table self.now) ((table self.now).word3 at)) i.n) next }
    {
        let n = self.site.tokens;
        let name = word_at(self.words, n, 3, at) as usize;
        let k = i.encode();
        if k < 2147483648 && k < word_at(self.words, n, 2, name) {
            let first = word_at(self.words, n, 3, name) as usize;
            let value = Value::decode(word_at(self.words, n, 3, first + k as usize));
            return Ok(Evaluated { value, next });
        }
        Err(Refusal::new(Reason::ArrayIndex, place_at(self.words, n, at + 1)))
    }

    // The name at a position, if it is that of a variable, a constant or an index variable.
    fn name(
        &self,
        vars: &[i32; MOST_NAMES],
        index: &[i32; MOST_OPEN],
        at: usize,
    ) -> Option<Evaluated>
        requires { at < self.now.site.tokens }
        ensures { In EvalsName self.now vars.now index.now at (short result) }
    {
        let n = self.site.tokens;
        let refers = word_at(self.words, n, 2, at);
        let word = word_at(self.words, n, 3, at);
        let next = at + 1;
        if refers == 4 {
            let value = front_value(vars, self.site.slots, word as usize);
            return Some(Evaluated { value, next });
        }
        if refers == 1 {
            let value = Value::decode(word);
            return Some(Evaluated { value, next });
        }
        if refers == 5 {
            let value = front_value(index, self.depth, word as usize);
            return Some(Evaluated { value, next });
        }
        None
    }

    // The primary at a position, if it is a literal, a relative index, `cell` or `time`.
    fn plain(
        &self,
        vars: &[i32; MOST_NAMES],
        index: &[i32; MOST_OPEN],
        at: usize,
    ) -> Option<Evaluated>
        requires { at ≤ self.now.site.tokens }
        ensures { In EvalsPlain self.now vars.now index.now at (short result) }
    {
        let n = self.site.tokens;
        let kind = word_at(self.words, n, 0, at);
        if kind == kind::LITERAL {
            let value = Value::decode(word_at(self.words, n, 2, at));
            return Some(Evaluated {
                value,
                next: at + 1,
            });
        }
        if kind == kind::BRACKET {
            let value = self.neighbour_field(index, at);
            let next = link_at(self.words, n, 3, at);
            return Some(Evaluated { value, next });
        }
        if kind == kind::CELL {
            let field = word_at(self.words, n, 2, at) as usize;
            let value = field_of(self.grid, self.site.cell, self.site.fields, field);
            let next = link_at(self.words, n, 3, at);
            return Some(Evaluated { value, next });
        }
        if kind == kind::TIME {
            let value = Value::decode(self.site.time);
            return Some(Evaluated {
                value,
                next: at + 1,
            });
        }
        None
    }

    // The operand at a position, if it is a literal, a name, a relative index, `cell` or `time` alone.
    #[tactic(auto, using(crate::proofs::TableLaws::token, crate::proofs::LeafLaws::leaf_unary, crate::proofs::LeafLaws::leaf_name, crate::proofs::LeafLaws::leaf_plain))]
    pub fn leaf(
        &self,
        vars: &[i32; MOST_NAMES],
        index: &[i32; MOST_OPEN],
        at: usize,
    ) -> Option<Evaluated>
        requires { at ≤ self.now.site.tokens }
        ensures { In Leaf self.now vars.now index.now at (short result) }
    {
        let kind = self.kind(at);
        if kind == kind::NAME {
            if self.word(2, at) == 2 {
                return None;
            }
            return self.name(vars, index, at);
        }
        if kind == kind::PAREN {
            return None;
        }
        if is_unary(kind) {
            return None;
        }
        self.plain(vars, index, at)
    }
}
