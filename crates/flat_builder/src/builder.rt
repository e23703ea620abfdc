// A flat module that grows.
ghost use Rattle.std.specs.Prelude.{◌≡◌, ◌<◌, [], None, Some, IfOk, OnErr, OnOk, length};
ghost use Rattle.kind_text.specs.FlatModule.{IsMadeOfEarlier, IsOrdered};
ghost use Rattle.kind_text.specs.FlatModule as text;
ghost use Rattle.kind_table.specs.Flattened.{definition_of, flat_of, form_of, instance_of, node_of};
ghost use Rattle.kind_table.specs.Flattened.{path_at};
ghost use Rattle.flat_builder.specs.Building.{IsBuilt, HasNoPath, NamesPath, empty};
ghost use Rattle.flat_builder.specs.Building.{with_definition, with_instance, with_node};

use kind_table::{Definition, FlatModule, Form, Instance, Node};
use std::alloc::{AllocError, Global};
use std::marker::Model;

/// A flat module that grows. Contracts see what its tables define.
#[derive(Drop)]
pub struct FlatBuilder {
    flat: FlatModule,
}

impl Model for FlatBuilder {
    ghost use Rattle.kind_text.specs.FlatModule as text;
    ghost use Rattle.kind_table.specs.Flattened.{flat_of};
    ghost use Rattle.flat_builder.specs.Building.{IsBuilt};

    ghost Value = { text.FlatModule };

    ghost view = { λ b. flat_of b.flat };

    ghost invariant = { λ b. IsBuilt b.flat };
}

impl FlatBuilder {
    /// Nothing is defined. It takes no memory.
    pub fn new(alloc: Global) -> FlatBuilder
        ensures { result ≡ empty }
    {
        FlatBuilder {
            flat: FlatModule {
                nodes: Vec::new(alloc),
                definitions: Vec::new(alloc),
                instances: Vec::new(alloc),
                paths: Vec::new(alloc),
            },
        }
    }

    /// The tables so far.
    pub fn as_flat(&self) -> &FlatModule
        ensures tables { flat_of result.now ≡ self.now }
        ensures ordered { IsOrdered self.now }
    {
        &self.flat
    }

    /// Adds a node of a form that names no path, and answers its number. After an error the module
    /// is as before.
    pub fn add(
        &mut self,
        form: Form,
        places: Option<usize>,
        parts: Vec<usize>,
    ) -> Result<usize, AllocError>
        requires path { HasNoPath form }
        requires earlier { IsMadeOfEarlier self.old (length self.old.nodes)
            (record { form = form_of [] form; places = places; parts = parts.items }) }
        ensures number { IfOk result (λ number. number ≡ length self.old.nodes) }
        ensures added { OnOk result (self.new ≡ with_node self.old
            (record { form = form_of [] form; places = places; parts = parts.items })) }
        ensures kept { OnErr result (self.new ≡ self.old) }
    {
        push_node(
            &mut self.flat,
            Node {
                form,
                places,
                parts,
            },
        )
    }

    /// Adds a use of a definition behind a path of instances, and answers its number. After an
    /// error the module is as before.
    pub fn add_use(
        &mut self,
        path: Vec<usize>,
        definition: usize,
        parts: Vec<usize>,
    ) -> Result<usize, AllocError>
        requires earlier { IsMadeOfEarlier self.old (length self.old.nodes)
            (record {
              form = text.Form.Use path.items definition;
              places = None;
              parts = parts.items;
            }) }
        ensures number { IfOk result (λ number. number ≡ length self.old.nodes) }
        ensures added { OnOk result (self.new ≡ with_node self.old
            (record {
              form = text.Form.Use path.items definition;
              places = None;
              parts = parts.items;
            })) }
        ensures kept { OnErr result (self.new ≡ self.old) }
    {
        let path = push_path(&mut self.flat, path)?;
        push_node(
            &mut self.flat,
            Node {
                form: Form::Use(path, definition),
                places: None,
                parts,
            },
        )
    }

    /// Adds the same as a bare operator, with so many places.
    pub fn add_name(
        &mut self,
        path: Vec<usize>,
        definition: usize,
        places: usize,
        parts: Vec<usize>,
    ) -> Result<usize, AllocError>
        requires earlier { IsMadeOfEarlier self.old (length self.old.nodes)
            (record {
              form = text.Form.Name path.items definition;
              places = Some places;
              parts = parts.items;
            }) }
        ensures number { IfOk result (λ number. number ≡ length self.old.nodes) }
        ensures added { OnOk result (self.new ≡ with_node self.old
            (record {
              form = text.Form.Name path.items definition;
              places = Some places;
              parts = parts.items;
            })) }
        ensures kept { OnErr result (self.new ≡ self.old) }
    {
        let path = push_path(&mut self.flat, path)?;
        push_node(
            &mut self.flat,
            Node {
                form: Form::Name(path, definition),
                places: Some(places),
                parts,
            },
        )
    }

    /// Adds a definition, and answers its number. After an error the module is as before.
    pub fn define(&mut self, definition: Definition) -> Result<usize, AllocError>
        ensures number { IfOk result (λ number. number ≡ length self.old.definitions) }
        ensures added { OnOk result
            (self.new ≡ with_definition self.old (definition_of definition)) }
        ensures kept { OnErr result (self.new ≡ self.old) }
    {
        push_definition(&mut self.flat, definition)
    }

    /// Adds an instance, and answers its number. After an error the module is as before.
    pub fn instantiate(&mut self, instance: Instance) -> Result<usize, AllocError>
        ensures number { IfOk result (λ number. number ≡ length self.old.instances) }
        ensures added { OnOk result (self.new ≡ with_instance self.old (instance_of instance)) }
        ensures kept { OnErr result (self.new ≡ self.old) }
    {
        push_instance(&mut self.flat, instance)
    }
}

// Appends a node.
fn push_node(flat: &mut FlatModule, node: Node) -> Result<usize, AllocError>
    requires built { IsBuilt flat.old }
    requires path { NamesPath (length flat.old.paths.items) node.form }
    requires earlier { IsMadeOfEarlier (flat_of flat.old) (length flat.old.nodes.items)
        (node_of flat.old.paths.items node) }
    ensures built { IsBuilt flat.new }
    ensures number { IfOk result (λ number. number ≡ length (flat_of flat.old).nodes) }
    ensures added { OnOk result (flat_of flat.new
        ≡ with_node (flat_of flat.old) (node_of flat.old.paths.items node)) }
    ensures kept { OnErr result (flat_of flat.new ≡ flat_of flat.old) }
{
    let number = flat.nodes.len();
    flat.nodes.push(node)?;
    Ok(number)
}

// Appends a path.
fn push_path(flat: &mut FlatModule, path: Vec<usize>) -> Result<usize, AllocError>
    requires built { IsBuilt flat.old }
    ensures built { IsBuilt flat.new }
    ensures same { flat_of flat.new ≡ flat_of flat.old }
    ensures within { IfOk result (λ number. number < length flat.new.paths.items) }
    ensures path { IfOk result (λ number. path_at flat.new.paths.items number ≡ path.items) }
{
    let number = flat.paths.len();
    flat.paths.push(path)?;
    Ok(number)
}

// Appends a definition.
fn push_definition(flat: &mut FlatModule, definition: Definition) -> Result<usize, AllocError>
    requires built { IsBuilt flat.old }
    ensures built { IsBuilt flat.new }
    ensures number { IfOk result (λ number. number ≡ length (flat_of flat.old).definitions) }
    ensures added { OnOk result (flat_of flat.new
        ≡ with_definition (flat_of flat.old) (definition_of definition)) }
    ensures kept { OnErr result (flat_of flat.new ≡ flat_of flat.old) }
{
    let number = flat.definitions.len();
    flat.definitions.push(definition)?;
    Ok(number)
}

// Appends an instance.
fn push_instance(flat: &mut FlatModule, instance: Instance) -> Result<usize, AllocError>
    requires built { IsBuilt flat.old }
    ensures built { IsBuilt flat.new }
    ensures number { IfOk result (λ number. number ≡ length (flat_of flat.old).instances) }
    ensures added { OnOk result (flat_of flat.new
        ≡ with_instance (flat_of flat.old) (instance_of instance)) }
    ensures kept { OnErr result (flat_of flat.new ≡ flat_of flat.old) }
{
    let number = flat.instances.len();
    flat.instances.push(instance)?;
    Ok(number)
}
