//! What the steps of a seat do to the things that views keep. Each law is a clause of a function, and the rule of a
//! table cites it.

ghost use Rattle.seat_views.specs.Laws.{KeepsNews, KeepsSplit, KeepsJoin};

/// A seat changes what it keeps, cuts its view in two, and takes another's in.
pub fn views_keep_things<A, V>()
    ensures news { KeepsNews A V }
    ensures split { KeepsSplit A V }
    ensures join { KeepsJoin A V }
{}
