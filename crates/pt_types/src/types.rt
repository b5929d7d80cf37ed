ghost use Rattle.std.specs.Prelude.{◌≡◌, ◌<◌, ◌++◌, length, IfOk};
ghost use Rattle.pt_ast.specs.Types.{List_type, Tuple_type, more_type};
ghost use Rattle.pt_typing.specs.Served.{same_type};
ghost use Rattle.pt_typing.specs.Serving.{IsTuple};
ghost use Rattle.pt_types.specs.Kept.{type_of, tree_of, trees_of, base_shapes, Grows, Keeps, types_under, IsWithin};

use crate::Shape;
use indexmap::IndexSet;
use pt_choice::NoMemory;
use std::alloc::Global;
use std::marker::Model;

/// Types in the order in which they were met, each once. A type's number is its place, counted from 0.
#[derive(Drop)]
pub struct Types {
    shapes: IndexSet<Shape>,
}

impl Model for Types {
    ghost use Rattle.std.specs.Prelude.{List};
    ghost use Rattle.pt_types.specs.declared.shape.Shape.{Shape};
    ghost use Rattle.pt_types.specs.Kept.{AreKept};

    ghost Value = { List Shape };

    ghost view = { λ types. types.shapes.keys };

    ghost invariant = { λ types. AreKept types.shapes.keys };
}

impl Types {
    /// The types that hold no others, with the numbers 0 to 5: integers, booleans, texts, bytes, trees, and the empty tuple.
    pub fn base(alloc: Global) -> Result<Types, NoMemory>
        ensures { IfOk result (λ types. types ≡ base_shapes) }
    {
        let mut shapes = IndexSet::new(alloc);
        shapes.insert(Shape::Int)?;
        shapes.insert(Shape::Bool)?;
        shapes.insert(Shape::Text)?;
        shapes.insert(Shape::Bytes)?;
        shapes.insert(Shape::Tree)?;
        shapes.insert(Shape::Empty)?;
        Ok(Types { shapes })
    }

    pub fn len(&self) -> usize
        ensures { result ≡ length self.now }
    {
        self.shapes.len()
    }

    /// Whether two numbers are of one type.
    pub fn same(&self, left: usize, right: usize) -> bool
        requires left { left < length self.now }
        requires right { right < length self.now }
        ensures { result ≡ same_type (type_of self.now left) (type_of self.now right) }
    {
        let _shapes = &self.shapes;
        left == right
    }

    /// What the type of a number is made of.
    pub fn shape(&self, number: usize) -> Shape
        requires { number < length self.now }
        ensures shape { type_of self.now number ≡ tree_of (trees_of self.now) result }
        ensures within { IsWithin (trees_of self.now) result }
    {
        self.shapes[number]
    }

    /// The number of the type of lists of such members.
    pub fn list_of(&mut self, member: usize) -> Result<usize, NoMemory>
        requires { member < length self.old }
        ensures grows { Grows self.old self.new }
        ensures keeps { IfOk result (λ number. Keeps self.new number (List_type (type_of self.old member))) }
    {
        let (number, _) = self.shapes.insert_full(Shape::List(member))?;
        Ok(number)
    }

    /// The number of the type of tuples whose first part is of the one type, and whose parts behind it are those of the other.
    pub fn tuple_of(&mut self, first: usize, behind: usize) -> Result<usize, NoMemory>
        requires first { first < length self.old }
        requires behind { behind < length self.old }
        requires tuple { IsTuple (type_of self.old behind) }
        ensures grows { Grows self.old self.new }
        ensures keeps { IfOk result (λ number. Keeps self.new number (Tuple_type (more_type (type_of self.old first) (types_under (type_of self.old behind))))) }
    {
        let (number, _) = self.shapes.insert_full(Shape::Tuple(first, behind))?;
        Ok(number)
    }
}
