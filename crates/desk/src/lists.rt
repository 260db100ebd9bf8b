//! What a hall lists.
ghost use Rattle.std.specs.Prelude.{◌≡◌, ◌++◌, length, IfOk, OnOk, OnErr};
ghost use Rattle.desk.specs.Desks.{named, empty_desk, hosted, box_listed, compound_listed, shape_listed, row_listed};

use geometry::{Aabb, ShapeKind, Vector};
use hosts::Child;
use hosts::children::MOST_CHILDREN;
use recorded::{Listed, Row};
use script::{Children, HostChoice};
use slide::Shape;
use std::alloc::{AllocError, Global};
use std::marker::Model;

/// The shapes, children and rows of a hall, and which host answers for them.
#[derive(Drop)]
pub struct Desk {
    pub host: HostChoice,
    pub shapes: Vec<Shape>,
    pub listed: Vec<Listed>,
    pub children: Vec<Child>,
    pub rows: Vec<Row>,
}

impl Model for Desk {
    ghost use Rattle.std.specs.Prelude.{vec_items};
    ghost use Rattle.desk.specs.Contents.{Contents};

    ghost Value = { Contents };

    ghost view = { λ d. record { host = d.host; shapes = vec_items d.shapes; listed = vec_items d.listed; children = vec_items d.children; rows = vec_items d.rows } };
}

/// Puts the children of a Compound at the end of the list, and says where they begin.
fn keep(list: &mut Vec<Child>, children: &Children) -> Result<u32, AllocError>
    ensures first { IfOk result (λ first. first ≡ length list.old.items) }
    ensures ok { OnOk result (list.new.items ≡ list.old.items ++ named children.now) }
    ensures err { OnErr result (list.new.items ≡ list.old.items) }
{
    let first = u32::try_from(list.len()).map_err(|_| AllocError)?;
    let count = (children.count as usize).min(MOST_CHILDREN);
    list.extend_from_slice(&children.list[..count])?;
    Ok(first)
}

impl Desk {
    /// A desk with nothing on it; the slide host answers.
    pub fn new(heap: Global) -> Desk
        ensures { result ≡ empty_desk }
    {
        Desk {
            host: HostChoice::Slide,
            shapes: Vec::new(heap),
            listed: Vec::new(heap),
            children: Vec::new(heap),
            rows: Vec::new(heap),
        }
    }

    /// Forgets everything.
    pub fn clear(&mut self)
        ensures { self.new ≡ empty_desk }
    {
        self.host = HostChoice::Slide;
        self.shapes.clear();
        self.listed.clear();
        self.children.clear();
        self.rows.clear();
    }

    /// Lets another host answer.
    pub fn choose(&mut self, host: HostChoice)
        ensures { self.new ≡ hosted self.old host }
    {
        self.host = host;
    }

    /// Lists a box of the slide host.
    pub fn list_box(&mut self, half: Vector) -> Result<(), AllocError>
        ensures ok { OnOk result (self.new ≡ box_listed self.old half) }
        ensures err { OnErr result (self.new ≡ self.old) }
    {
        self.shapes.push(Shape::Cuboid(half))?;
        Ok(())
    }

    /// Lists a Compound of the slide host, with its children.
    pub fn list_compound(&mut self, children: &Children) -> Result<(), AllocError>
        ensures ok { OnOk result (self.new ≡ compound_listed self.old children.now) }
        ensures err { OnErr result (self.new ≡ self.old) }
    {
        self.shapes.reserve(1)?;
        let first = keep(&mut self.children, children)?;
        let count = children.count;
        self.shapes.push(Shape::Group { first, count }).unwrap();
        Ok(())
    }

    /// Lists a shape of the recorded host, with its children if it is a Compound.
    pub fn list_shape(
        &mut self,
        kind: ShapeKind,
        aabb: Aabb,
        children: &Children,
    ) -> Result<(), AllocError>
        ensures ok { OnOk result (self.new ≡ shape_listed self.old kind aabb children.now) }
        ensures err { OnErr result (self.new ≡ self.old) }
    {
        self.listed.reserve(1)?;
        let first = keep(&mut self.children, children)?;
        let shape = Listed {
            kind,
            aabb,
            first,
            count: children.count,
        };
        self.listed.push(shape).unwrap();
        Ok(())
    }

    /// Lists a row of the recorded host.
    pub fn list_row(&mut self, row: Row) -> Result<(), AllocError>
        ensures ok { OnOk result (self.new ≡ row_listed self.old row) }
        ensures err { OnErr result (self.new ≡ self.old) }
    {
        self.rows.push(row)?;
        Ok(())
    }
}
