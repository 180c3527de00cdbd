//! Laws of shapes, each the contract of a function that does nothing.

ghost use Rattle.shape_rules.specs.Meant.{SoundShapes, SoundTensors};

/// Shapes are those of the meaning, in each part of a sound module.
pub fn shapes_are_those_of_the_meaning()
    ensures shapes { SoundShapes }
    ensures tensors { SoundTensors }
{}
