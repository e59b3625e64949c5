ghost use Rattle.std.specs.Prelude.{◌≡◌, ◌∷◌, ◌++◌, ℕ, [], List, Option, IfOk, OnErr, MatchOption, slice_get};
ghost use Rattle.sp_graph.specs.Graph.{branch_in, way};
ghost use Rattle.sp_graph.specs.Walks.{NoLongWalk, Inside, IsCut, ending, walks};
ghost use Rattle.sp_graph.specs.code.Search.{Trail, Reached, Ready, IsMove, Goes, found, turned, coming_walks, still_to_come};
ghost use Rattle.sp_graph.specs.declared.walk.Walk.{Walk};

use crate::graph::{access_at, branch_at, has_assertion, way_at};
use crate::path::Path;
use crate::{End, Node, Step, Walk};
use std::alloc::{AllocError, Global};
use std::marker::Model;

/// Where the search for the next walk is.
#[derive(Clone, Copy, Debug)]
enum Place {
    /// It comes to an instruction.
    Coming(usize),
    /// It goes on there, before its access.
    On(usize),
    /// It goes by a branch, before its end.
    By(Step),
    /// It goes on where the branch leads.
    Past(Step),
    /// It goes back to the last step.
    Back,
}

/// A walk that a move gives, if it gives one, and the place after it.
#[derive(Drop)]
struct Move {
    found: Option<Walk>,
    place: Place,
}

/// The walk that ends here, where there is such an end.
fn walk_to(
    from: Option<usize>,
    steps: &Path,
    end: Option<End>,
    at: usize,
) -> Result<Option<Walk>, AllocError>
    ensures { IfOk result (λ walk. found walk ≡ ending from steps.now at end) }
{
    match end {
        Some(end) => {
            let steps = steps.copy()?;
            Ok(Some(Walk {
                from,
                steps,
                end,
                at,
            }))
        }
        None => Ok(None),
    }
}

/// The place after all walks by a step's branch.
fn turn(step: Step) -> Place
    ensures { result ≡ turned step }
{
    if step.taken {
        Place::Back
    } else {
        Place::By(Step {
            at: step.at,
            taken: true,
        })
    }
}

fn come(graph: &[Node], from: Option<usize>, steps: &Path, at: usize) -> Result<Move, AllocError>
    requires short { NoLongWalk graph.now from }
    requires trail { Trail graph.now from [] steps.now }
    requires reached { Reached graph.now from steps.now (Place.Coming at) }
    ensures { IfOk result (λ m. IsMove graph.now from steps.now (Place.Coming at) steps.now m.place (found m.found)) }
{
    if has_assertion(graph, at) {
        let found = walk_to(from, steps, Some(End::Assert), at)?;
        Ok(Move {
            found,
            place: Place::Back,
        })
    } else {
        Ok(Move {
            found: None,
            place: Place::On(at),
        })
    }
}

fn go_on(graph: &[Node], from: Option<usize>, steps: &Path, at: usize) -> Result<Move, AllocError>
    requires short { NoLongWalk graph.now from }
    requires trail { Trail graph.now from [] steps.now }
    requires inside { Inside graph.now from steps.now at }
    ensures { IfOk result (λ m. IsMove graph.now from steps.now (Place.On at) steps.now m.place (found m.found)) }
{
    let found = walk_to(from, steps, access_at(graph, at), at)?;
    Ok(Move {
        found,
        place: Place::By(Step { at, taken: false }),
    })
}

fn go_by(graph: &[Node], from: Option<usize>, steps: &Path, step: Step) -> Result<Move, AllocError>
    requires short { NoLongWalk graph.now from }
    requires trail { Trail graph.now from [] steps.now }
    requires inside { Inside graph.now from steps.now step.at }
    ensures { IfOk result (λ m. IsMove graph.now from steps.now (Place.By step) steps.now m.place (found m.found)) }
{
    match branch_at(graph, step) {
        Some(branch) => {
            let found = walk_to(from, steps, branch.end, step.at)?;
            Ok(Move {
                found,
                place: Place::Past(step),
            })
        }
        None => Ok(Move {
            found: None,
            place: turn(step),
        }),
    }
}

fn go_past(
    graph: &[Node],
    from: Option<usize>,
    steps: &mut Path,
    step: Step,
) -> Result<Place, AllocError>
    requires short { NoLongWalk graph.now from }
    requires trail { Trail graph.now from [] steps.old }
    requires inside { Inside graph.now from steps.old step.at }
    ensures ok { IfOk result (λ place. IsMove graph.now from steps.old (Place.Past step) steps.new place []) }
    ensures err { OnErr result (steps.new ≡ steps.old) }
{
    match way_at(graph, step) {
        Some(to) => {
            steps.push(step)?;
            Ok(Place::Coming(to))
        }
        None => Ok(turn(step)),
    }
}

fn go_back(graph: &[Node], from: Option<usize>, steps: &mut Path) -> Option<Place>
    requires trail { Trail graph.now from [] steps.old }
    ensures { MatchOption result ((steps.old ≡ []) × (steps.new ≡ [])) (λ place. IsMove graph.now from steps.old Place.Back steps.new place []) }
{
    match steps.pop() {
        Some(step) => Some(turn(step)),
        None => None,
    }
}

fn advance(
    graph: &[Node],
    from: Option<usize>,
    steps: &mut Path,
    place: Place,
) -> Result<Option<Move>, AllocError>
    requires ready { Ready graph.now from steps.old place }
    ensures ok { IfOk result (λ r. MatchOption r
        ((steps.old ≡ []) × (steps.new ≡ []) × (place ≡ Place.Back))
        (λ m. IsMove graph.now from steps.old place steps.new m.place (found m.found))) }
    ensures err { OnErr result (steps.new ≡ steps.old) }
{
    match place {
        Place::Coming(at) => Ok(Some(come(graph, from, steps, at)?)),
        Place::On(at) => Ok(Some(go_on(graph, from, steps, at)?)),
        Place::By(step) => Ok(Some(go_by(graph, from, steps, step)?)),
        Place::Past(step) => Ok(Some(Move {
            found: None,
            place: go_past(graph, from, steps, step)?,
        })),
        Place::Back => match go_back(graph, from, steps) {
            Some(place) => Ok(Some(Move { found: None, place })),
            None => Ok(None),
        },
    }
}

/// The next walk from a cut point.
fn walk_here(
    graph: &[Node],
    from: Option<usize>,
    steps: &mut Path,
    place: &mut Place,
) -> Result<Option<Walk>, AllocError>
    requires { Ready graph.now from steps.old place.old }
    ensures ok { IfOk result (λ r. MatchOption r
        ((coming_walks graph.now from steps.old place.old ≡ []) × (steps.new ≡ []) × (place.new ≡ Place.Back))
        (λ walk. Goes graph.now from (coming_walks graph.now from steps.old place.old) (walk ∷ []) steps.new place.new)) }
    ensures err { OnErr result (Goes graph.now from (coming_walks graph.now from steps.old place.old) [] steps.new place.new) }
{
    'moves: loop {
        match advance(graph, from, steps, *place)? {
            Some(Move { found, place: next }) => {
                *place = next;
                if let Some(walk) = found {
                    return Ok(Some(walk));
                }
            }
            None => return Ok(None),
        }
    }
}

/// The walks of a graph that are still to come, in order.
#[derive(Debug, Drop)]
pub struct Search {
    graph: Vec<Node>,
    from: Option<usize>,
    steps: Path,
    place: Place,
    rest: usize,
}

impl Model for Search {
    ghost Value = { List Walk };

    ghost view = { λ s. still_to_come s.graph.items s.from s.steps s.place s.rest };

    ghost invariant = { λ s. Ready s.graph.items s.from s.steps s.place
        × ((from : Option ℕ) → IsCut s.graph.items from → NoLongWalk s.graph.items from) };
}

impl Search {
    /// The walks of a graph, from its entry and from each assertion, where none is long.
    pub fn new(alloc: Global, graph: Vec<Node>) -> Search
        requires { (from : Option ℕ) → IsCut graph.items from → NoLongWalk graph.items from }
        ensures { result ≡ walks graph.items }
    {
        Search {
            graph,
            from: None,
            steps: Path::new(alloc),
            place: Place::Coming(0),
            rest: 0,
        }
    }

    /// The next walk.
    pub fn next(&mut self) -> Result<Option<Walk>, AllocError>
        ensures ok { IfOk result (λ r. MatchOption r ((self.old ≡ []) × (self.new ≡ [])) (λ walk. self.old ≡ walk ∷ self.new)) }
        ensures err { OnErr result (self.new ≡ self.old) }
    {
        'cuts: loop {
            match walk_here(&self.graph, self.from, &mut self.steps, &mut self.place)? {
                Some(walk) => return Ok(Some(walk)),
                None => {
                    if self.rest >= self.graph.len() {
                        return Ok(None);
                    }
                    if has_assertion(&self.graph, self.rest) {
                        self.from = Some(self.rest);
                        self.place = Place::On(self.rest);
                    }
                    self.rest += 1;
                }
            }
        }
    }
}
