//! Tiles, defined: a marked function with one large counting loop is cut into several marked functions, and when it isn't.
