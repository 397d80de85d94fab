use qm_json::Json;

/// What plans can return of the monitor itself.
#[derive(Drop)]
pub struct Facts {
    /// What `query-version` returns.
    pub version: Json,
    /// What `query-commands` returns.
    pub commands: Json,
    /// What `query-qmp-schema` returns.
    pub introspection: Json,
    /// What `query-jobs` returns.
    pub jobs: Json,
}
